//! The names of rows.

ghost use Rattle.std.specs.Prelude.{◌≡◌, ◌+◌, [], map, IfOk, OnOk};
ghost use Rattle.std.specs.Str.{bytes_eq};
ghost use Rattle.indexmap.specs.IndexMap.{insert_entry};
ghost use Rattle.dy_base.specs.declared.ids.What.TheVariants as whats;
ghost use Rattle.dy_built_in_exports.specs.Names as specs;
ghost use Rattle.dy_built_in_exports.specs.Names.{with_rows};

use dy_base::{BindingId, NameList, Ref, What};
use dy_term::{ClassRow, GenericRow, LibraryRow, VariableRow};
use std::alloc::{AllocError, Global};

/// Adds the name of the row that comes next of a kind. The one error is want of memory, or of
/// numbers.
fn add_row(
    alloc: Global,
    library: u32,
    what: What,
    name: &[u8],
    row: &mut u32,
    list: &mut NameList<BindingId>,
) -> Result<(), AllocError>
    ensures row { OnOk result (row.new ≡ row.old + 1) }
    ensures list { OnOk result (list.new
        ≡ insert_entry bytes_eq list.old name.now (specs.row_id library what row.old)) }
{
    let at = Ref { library, row: *row };
    list.set(alloc, name, BindingId { what, at })?;
    *row = row.checked_add(1).ok_or(AllocError)?;
    Ok(())
}

fn add_classes(
    alloc: Global,
    library: u32,
    classes: &[ClassRow],
    list: &mut NameList<BindingId>,
) -> Result<(), AllocError>
    ensures { OnOk result (list.new ≡ with_rows library whats.Class 0
        (map (λ r. r.name) classes.now) list.old) }
{
    let mut next = 0;
    for class in classes {
        add_row(
            alloc,
            library,
            What::Class,
            class.name.bytes(),
            &mut next,
            list,
        )?;
    }
    Ok(())
}

fn add_generics(
    alloc: Global,
    library: u32,
    generics: &[GenericRow],
    list: &mut NameList<BindingId>,
) -> Result<(), AllocError>
    ensures { OnOk result (list.new ≡ with_rows library whats.Generic 0
        (map (λ r. r.name) generics.now) list.old) }
{
    let mut next = 0;
    for generic in generics {
        add_row(
            alloc,
            library,
            What::Generic,
            generic.name.bytes(),
            &mut next,
            list,
        )?;
    }
    Ok(())
}

fn add_functions(
    alloc: Global,
    library: u32,
    functions: &[VariableRow],
    list: &mut NameList<BindingId>,
) -> Result<(), AllocError>
    ensures { OnOk result (list.new ≡ with_rows library whats.Function 0
        (map (λ r. r.name) functions.now) list.old) }
{
    let mut next = 0;
    for function in functions {
        add_row(
            alloc,
            library,
            What::Function,
            function.name.bytes(),
            &mut next,
            list,
        )?;
    }
    Ok(())
}

/// The names of all rows of a built-in library, each with its row. The one error is want of memory,
/// or of numbers.
pub fn names_of(
    alloc: Global,
    library: u32,
    row: &LibraryRow,
) -> Result<NameList<BindingId>, AllocError>
    ensures { IfOk result (λ list. list ≡ specs.names_of library row.now) }
{
    let mut list = NameList::new(alloc);
    add_classes(alloc, library, row.classes.as_slice(), &mut list)?;
    add_generics(alloc, library, row.generics.as_slice(), &mut list)?;
    add_functions(alloc, library, row.variables.as_slice(), &mut list)?;
    Ok(list)
}
