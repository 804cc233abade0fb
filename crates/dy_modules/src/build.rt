//! Whether tables are made, and no name in them has two owners.

ghost use Rattle.std.specs.Prelude.{◌≡◌};
ghost use Rattle.std.specs.Option.{option_map};
ghost use Rattle.dy_modules.specs.Builds.{is_many, is_clear_row, is_clear};
ghost use Rattle.dy_modules.specs.Builds.{is_clear_module, all_clear};

use crate::rounds::ModuleTables;
use crate::table::Cell;
use dy_base::NameList;

fn is_many(cell: &Cell) -> bool
    ensures { result ≡ is_many cell.now }
{
    match cell {
        Cell::One(_) => false,
        Cell::Many => true,
    }
}

fn is_clear_row(row: Option<(&[u8], &Cell)>) -> bool
    ensures { result ≡ is_clear_row (option_map (λ p. (p.0.now, p.1.now)) row.entry) }
{
    match row {
        Some((_, cell)) => !is_many(cell),
        None => true,
    }
}

/// No name of a table has two owners.
pub fn is_clear(table: &NameList<Cell>) -> bool
    ensures { result ≡ is_clear table.now }
{
    for place in 0..table.len() {
        if !is_clear_row(table.at(place)) {
            return false;
        }
    }
    true
}

fn is_clear_module(tables: &Option<ModuleTables>) -> bool
    ensures { result ≡ is_clear_module tables.now }
{
    match tables {
        Some(tables) => is_clear(&tables.imports),
        None => false,
    }
}

/// All tables are made, and no name has two owners by imports.
pub fn all_clear(done: &[Option<ModuleTables>]) -> bool
    ensures { result ≡ all_clear done.now }
{
    for tables in done {
        if !is_clear_module(tables) {
            return false;
        }
    }
    true
}
