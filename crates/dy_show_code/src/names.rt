//! What names of a program are called.

use dy_base::{BindingId, Name, What};
use dy_core_text::Written;
use dy_term::{LibraryRow, Program};
use std::str;

/// Adds bytes, where they are UTF-8.
pub(crate) fn write_bytes(out: &mut Written, bytes: &[u8]) {
    match str::from_utf8(bytes) {
        Ok(text) => out.word(text),
        Err(_) => out.word("?"),
    }
}

/// The name of a row of a library.
fn name_in(library: &LibraryRow, what: What, row: usize) -> Option<&Name> {
    match what {
        What::Class => library.classes.as_slice().get(row).map(|class| &class.name),
        What::Generic => library
            .generics
            .as_slice()
            .get(row)
            .map(|generic| &generic.name),
        What::Variable | What::Constant | What::Function | What::Macro => {
            library
                .variables
                .as_slice()
                .get(row)
                .map(|variable| &variable.name)
        }
    }
}

/// Adds what a name of a program is called.
pub(crate) fn write_name(out: &mut Written, program: &Program, named: BindingId) {
    let row = named.at.row as usize;
    match program.libraries.as_slice().get(named.at.library as usize) {
        None => out.word("?"),
        Some(library) => match name_in(library, named.what, row) {
            None => out.word("?"),
            Some(name) => write_bytes(out, name.bytes()),
        },
    }
}
