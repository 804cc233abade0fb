//! What the rows of a program say of a class.

ghost use Rattle.std.specs.Prelude.{◌≡◌};
ghost use Rattle.std.specs.Option.{option_copied};
ghost use Rattle.dy_classes.specs.Rows.{row_at, supers_at, order_at, name_at};
ghost use Rattle.dy_classes.specs.Legal.{generic_at, generic_name};

use dy_base::{ClassId, GenericId};
use dy_term::{ClassRow, GenericRow, Program};

pub(crate) fn row_of(program: &Program, class: ClassId) -> Option<&ClassRow>
    ensures { option_copied result ≡ row_at program.now class }
{
    let library = program.libraries.as_slice().get(class.0.library as usize)?;
    library.classes.as_slice().get(class.0.row as usize)
}

pub(crate) fn supers_of(program: &Program, class: ClassId) -> &[ClassId]
    ensures { result.now ≡ supers_at program.now class }
{
    match row_of(program, class) {
        Some(row) => row.supers.as_slice(),
        None => &[],
    }
}

pub(crate) fn order_of(program: &Program, class: ClassId) -> &[ClassId]
    ensures { result.now ≡ order_at program.now class }
{
    match row_of(program, class) {
        Some(row) => row.order.as_slice(),
        None => &[],
    }
}

pub(crate) fn name_of(program: &Program, class: ClassId) -> &[u8]
    ensures { result.now ≡ name_at program.now class }
{
    match row_of(program, class) {
        Some(row) => row.name.bytes(),
        None => &[],
    }
}

pub(crate) fn generic_name_of(program: &Program, generic: GenericId) -> &[u8]
    ensures { result.now ≡ generic_name program.now generic }
{
    match generic_of(program, generic) {
        Some(row) => row.name.bytes(),
        None => &[],
    }
}

fn generic_of(program: &Program, generic: GenericId) -> Option<&GenericRow>
    ensures { option_copied result ≡ generic_at program.now generic }
{
    let library = program
        .libraries
        .as_slice()
        .get(generic.0.library as usize)?;
    library.generics.as_slice().get(generic.0.row as usize)
}
