//! A table of names with what is known of their owners.

ghost use Rattle.std.specs.Prelude.{◌≡◌, cond, IfOk, OnOk, Some};
ghost use Rattle.std.specs.Option.{option_copied};
ghost use Rattle.std.specs.Str.{bytes_eq};
ghost use Rattle.dy_modules.specs.Clauses.{Name};
ghost use Rattle.dy_modules.specs.Cells.{at, both, plus};

use crate::owner::Owner;
use dy_base::NameList;
use std::alloc::{AllocError, Global};

/// Who owns a name: one owner, or several.
#[derive(Clone, Debug, Drop)]
pub enum Cell {
    One(Owner),
    Many,
}

/// The same cell, in memory of its own.
pub fn copy(cell: &Cell) -> Result<Cell, AllocError>
    ensures { IfOk result (λ copy. copy ≡ cell.now) }
{
    cell.clone()
}

fn both(a: &Cell, b: Cell) -> Cell
    ensures { result ≡ both a.now b }
{
    match (a, b) {
        (Cell::One(j), Cell::One(k)) => {
            if j.is_same(&k) {
                Cell::One(k)
            } else {
                Cell::Many
            }
        }
        (Cell::One(_), Cell::Many) => Cell::Many,
        (Cell::Many, _) => Cell::Many,
    }
}

fn plus(a: Option<&Cell>, b: Cell) -> Cell
    ensures { Some result ≡ plus (option_copied a.entry) b }
{
    match a {
        Some(a) => both(a, b),
        None => b,
    }
}

/// Notes one more owner of a name, or several.
pub fn add(
    alloc: Global,
    table: &mut NameList<Cell>,
    name: &[u8],
    cell: Cell,
) -> Result<(), AllocError>
    ensures { OnOk result ((n : Name)
        → at table.new n ≡ cond (bytes_eq n name.now) (plus (at table.old n) cell)
        (at table.old n)) }
{
    let cell = plus(table.get(name), cell);
    table.set(alloc, name, cell)
}
