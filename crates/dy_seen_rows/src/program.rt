//! The class rows of a view as a program.

ghost use Rattle.std.specs.Prelude.{◌≡◌, IfOk};
ghost use Rattle.dy_seen_rows.specs.Rows as spec;

use dy_base::{Items, fold};
use dy_term::{ClassRow, LibraryRow, Program};
use std::alloc::{AllocError, Global};

/// A library without a name that has these classes and nothing else.
fn class_library(alloc: Global, classes: Items<ClassRow>) -> Result<LibraryRow, AllocError>
    ensures { IfOk result (λ library. library ≡ spec.class_library classes) }
{
    Ok(LibraryRow {
        name: fold(alloc, b"".as_slice())?,
        uses: Items::new(alloc),
        classes,
        generics: Items::new(alloc),
        methods: Items::new(alloc),
        domains: Items::new(alloc),
        variables: Items::new(alloc),
        tops: Items::new(alloc),
    })
}

/// The program in which the classes of a view are ordered: the libraries of the view in front of
/// the own one have these class rows, and the own one, which stands last, has the others. Nothing
/// but class rows is in it. The one error is want of memory. No row is copied.
pub fn view_program(
    alloc: Global,
    seen: Items<Items<ClassRow>>,
    own: Items<ClassRow>,
) -> Result<Program, AllocError>
    ensures { IfOk result (λ program. program ≡ spec.view_program seen own) }
{
    let mut libraries = Items::new(alloc);
    for classes in seen.into_vec() {
        libraries.push(class_library(alloc, classes)?)?;
    }
    libraries.push(class_library(alloc, own)?)?;
    Ok(Program { libraries })
}
