//! The names under which source files are read.

ghost use Rattle.std.specs.Prelude.{◌≡◌, IfOk, IsTrue, string_bytes};
ghost use Rattle.dy_lexer.specs.Headers.{is_printable};
ghost use Rattle.dy_sources.specs.Layout.{folder_of, source_name};

use std::alloc::{AllocError, Global};
use std::str;

/// The name up to its last slash.
fn folder_of(name: &str) -> &str
    ensures { result.now ≡ folder_of name.now }
{
    match name.rfind('/') {
        Some(slash) => &name[..slash + 1],
        None => "",
    }
}

/// A file's name as text.
fn text_of(file: &[u8]) -> &str
    requires { IsTrue (is_printable file.now) }
    ensures { result.now ≡ file.now }
{
    match str::from_utf8(file) {
        Ok(text) => text,
        Err(_) => unreachable!(),
    }
}

/// The name under which a source file that the LID file `lid` names is read: it lies beside that
/// file.
pub(crate) fn source_name(alloc: Global, lid: &str, file: &[u8]) -> Result<String, AllocError>
    requires { IsTrue (is_printable file.now) }
    ensures { IfOk result (λ name. string_bytes name ≡ source_name lid.now file.now) }
{
    let mut name = String::from_str(alloc, folder_of(lid))?;
    name.push_str(text_of(file))?;
    Ok(name)
}
