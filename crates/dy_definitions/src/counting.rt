//! The tallies of definitions.

ghost use Rattle.std.specs.Prelude.{◌≡◌, IfOk, OnOk};
ghost use Rattle.dy_definitions.specs.Passes.{no_tallies, with_counted, with_definition};
ghost use Rattle.dy_definitions.specs.Passes.{with_all, tally_at};
ghost use Rattle.dy_definitions.specs.Seen.{tallies_in};

use crate::definitions::Definition;
use crate::owned::TallyTable;
use crate::tally::Tally;
use dy_modules::Owner;
use std::alloc::{AllocError, Global};

/// The tally of a module's name.
fn tally_of(
    alloc: Global,
    table: &TallyTable,
    number: usize,
    name: &[u8],
) -> Result<Tally, AllocError>
    ensures { IfOk result (λ tally. tally ≡ tallies_in table.now number name.now) }
{
    match table.get(alloc, number, name)? {
        Some(tally) => Ok(tally),
        None => Ok(Tally::none()),
    }
}

/// The tally of an owner's definitions.
pub fn tally_at(
    alloc: Global,
    table: &TallyTable,
    owner: &Option<Owner>,
) -> Result<Tally, AllocError>
    ensures { IfOk result (λ tally. tally ≡ tally_at (tallies_in table.now) owner.now) }
{
    match owner {
        Some(Owner::Own(number, name)) => tally_of(alloc, table, *number, name.bytes()),
        Some(Owner::Outside(_)) => Ok(Tally::none()),
        None => Ok(Tally::none()),
    }
}

/// Counts one more definition of a module's name.
fn count_own(
    alloc: Global,
    table: &mut TallyTable,
    number: usize,
    name: &[u8],
    definition: &Definition,
) -> Result<(), AllocError>
    ensures { OnOk result (tallies_in table.new ≡ with_counted number name.now definition.now
        (tallies_in table.old)) }
{
    let tally = tally_of(alloc, table, number, name)?;
    table.set(alloc, number, name, tally.with(definition))
}

/// Counts one more definition.
pub fn count(
    alloc: Global,
    table: &mut TallyTable,
    definition: &Definition,
) -> Result<(), AllocError>
    ensures { OnOk result (tallies_in table.new
        ≡ with_definition definition.now (tallies_in table.old)) }
{
    match &definition.owner {
        Some(Owner::Own(number, name)) => {
            count_own(alloc, table, *number, name.bytes(), definition)
        }
        Some(Owner::Outside(_)) => Ok(()),
        None => Ok(()),
    }
}

/// The tallies of all these definitions.
pub fn count_all(alloc: Global, definitions: &[Definition]) -> Result<TallyTable, AllocError>
    ensures { IfOk result (λ table. tallies_in table ≡ with_all definitions.now no_tallies) }
{
    let mut table = TallyTable::new(alloc);
    for definition in definitions {
        count(alloc, &mut table, definition)?;
    }
    Ok(table)
}
