//! Names that the libraries `dylan` and `io` export.

ghost use Rattle.std.specs.Prelude.{◌≡◌, ◌+◌, map, IfOk, OnOk};
ghost use Rattle.dy_base.specs.declared.ids.What.TheVariants as whats;
ghost use Rattle.dy_names.specs.Tables.{owner_in};
ghost use Rattle.dy_library_rows.specs.Names as specs;

use dy_base::{BindingId, Ref, What};
use dy_names::OwnerTable;
use dy_prims::{dylan, io};
use dy_term::{GenericRow, VariableRow};
use std::alloc::{AllocError, Global};

/// Takes the row that comes next of a kind. The one error is want of numbers.
pub fn take_row(rows: &mut u32) -> Result<u32, AllocError>
    ensures row { IfOk result (λ row. row ≡ rows.old) }
    ensures after { OnOk result (rows.new ≡ rows.old + 1) }
{
    let row = *rows;
    *rows = row.checked_add(1).ok_or(AllocError)?;
    Ok(row)
}

fn own_generics(
    alloc: Global,
    library: u32,
    generics: &[GenericRow],
    owners: &mut OwnerTable,
) -> Result<(), AllocError>
    ensures { OnOk result (owner_in owners.new ≡ specs.owning library whats.Generic 0
        (map (λ g. g.name) generics.now) (owner_in owners.old)) }
{
    let mut rows = 0;
    for generic in generics {
        let row = take_row(&mut rows)?;
        let at = Ref { library, row };
        let what = What::Generic;
        owners.set(alloc, 0, generic.name.bytes(), BindingId { what, at })?;
    }
    Ok(())
}

fn own_functions(
    alloc: Global,
    library: u32,
    functions: &[VariableRow],
    owners: &mut OwnerTable,
) -> Result<(), AllocError>
    ensures { OnOk result (owner_in owners.new ≡ specs.owning library whats.Function 0
        (map (λ v. v.name) functions.now) (owner_in owners.old)) }
{
    let mut rows = 0;
    for function in functions {
        let row = take_row(&mut rows)?;
        let at = Ref { library, row };
        let what = What::Function;
        owners.set(alloc, 0, function.name.bytes(), BindingId { what, at })?;
    }
    Ok(())
}

/// The names that `dylan`, the first library, and `io`, the second, export.
pub fn exports(alloc: Global) -> Result<OwnerTable, AllocError>
    ensures { IfOk result (λ owners. owner_in owners ≡ specs.exports) }
{
    let mut owners = OwnerTable::new(alloc);
    let dylan = dylan(alloc)?;
    own_generics(alloc, 0, dylan.generics.as_slice(), &mut owners)?;
    own_functions(alloc, 0, dylan.variables.as_slice(), &mut owners)?;
    let io = io(alloc)?;
    own_functions(alloc, 1, io.variables.as_slice(), &mut owners)?;
    Ok(owners)
}
