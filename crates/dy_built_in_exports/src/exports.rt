//! What a built-in library exports.

ghost use Rattle.std.specs.Prelude.{◌≡◌, ◌++◌, ◌∷◌, [], codes, Some, map as list_map, IfOk, OnOk};
ghost use Rattle.std.specs.Option.{option_map};
ghost use Rattle.std.specs.FinMap as map;
ghost use Rattle.dy_base.specs.Tables.{table_of};
ghost use Rattle.dy_prims.specs.Rows.{dylan_row, io_row};
ghost use Rattle.dy_built_in_exports.specs.Names as specs;

use crate::rows::names_of;
use dy_base::{BindingId, Exports, Items, Name, NameList, fold};
use dy_prims::{dylan, io};
use dy_term::LibraryRow;
use std::alloc::{AllocError, Global};

fn add_name(
    alloc: Global,
    row: Option<(&[u8], &BindingId)>,
    list: &mut Items<(Name, BindingId)>,
) -> Result<(), AllocError>
    ensures { OnOk result (list.new ≡ list.old
        ++ specs.folded_rows (option_map (λ p. (p.0.now, p.1.now)) row.entry ∷ [])) }
{
    let Some((name, id)) = row else {
        return Ok(());
    };
    list.push((fold(alloc, name)?, *id))?;
    Ok(())
}

fn sorted_names(
    alloc: Global,
    names: &NameList<BindingId>,
) -> Result<Items<(Name, BindingId)>, AllocError>
    ensures { IfOk result (λ list. list
        ≡ specs.folded_rows (list_map Some (map.entries (table_of names.now)))) }
{
    let mut list = Items::new(alloc);
    let places = names.sorted_places(alloc)?;
    for place in &places {
        add_name(alloc, names.at(*place), &mut list)?;
    }
    Ok(list)
}

fn exports_of(
    alloc: Global,
    number: u32,
    name: &[u8],
    exported: &[u8],
    row: &LibraryRow,
) -> Result<Exports, AllocError>
    ensures { IfOk result (λ exports. exports
        ≡ specs.exports_of number name.now exported.now row.now) }
{
    let names = sorted_names(alloc, &names_of(alloc, number, row)?)?;
    let mut modules = Items::new(alloc);
    modules.push((fold(alloc, exported)?, names))?;
    Ok(Exports {
        library: fold(alloc, name)?,
        modules,
        seen: Items::new(alloc),
    })
}

/// What the library `dylan`, the first of each program, exports: its one module `dylan` has the
/// names of all its rows. The one error is want of memory.
pub fn dylan_exports(alloc: Global) -> Result<Exports, AllocError>
    ensures { IfOk result (λ exports. exports
        ≡ specs.exports_of 0 (codes "dylan") (codes "dylan") dylan_row) }
{
    let row = dylan(alloc)?;
    let exports = exports_of(alloc, 0, b"dylan", b"dylan", &row)?;
    Ok(exports)
}

/// What the library `io`, the second of each program, exports: its one module `format-out` has the
/// function of this name. The one error is want of memory.
pub fn io_exports(alloc: Global) -> Result<Exports, AllocError>
    ensures { IfOk result (λ exports. exports
        ≡ specs.exports_of 1 (codes "io") (codes "format-out") io_row) }
{
    let row = io(alloc)?;
    exports_of(alloc, 1, b"io", b"format-out", &row)
}
