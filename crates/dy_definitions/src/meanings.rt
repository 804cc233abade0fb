//! The rows that definitions own.

ghost use Rattle.std.specs.Prelude.{◌≡◌, ◌+◌, IfOk, OnOk};
ghost use Rattle.dy_definitions.specs.Means.{next_row, one_more, no_rows};
ghost use Rattle.dy_definitions.specs.Names.{may_give};
ghost use Rattle.dy_definitions.specs.Passes.{gives_in, is_giver, meaning_at, with_meaning};
ghost use Rattle.dy_definitions.specs.Passes.{needs_row, rows_after, meanings_after, rows_with};
ghost use Rattle.dy_definitions.specs.Passes.{meanings_with, no_meanings};
ghost use Rattle.dy_definitions.specs.Seen.{tallies_in, meanings_in};

use crate::counting::tally_at;
use crate::definitions::{Definition, Role};
use crate::owned::{MeaningTable, TallyTable};
use crate::tally::{Tally, is_function, is_generic, what_made};
use dy_base::{BindingId, Ref, What};
use dy_modules::Owner;
use std::alloc::{AllocError, Global};

/// How many rows of each kind a library has. Constants and functions are rows of the variables.
#[derive(Clone, Copy, Debug, PartialEq, Eq)]
pub struct RowCounts {
    pub classes: u32,
    pub generics: u32,
    pub variables: u32,
}

/// Whether a definition may give its name its row, where the name is a generic function or is none,
/// and a form makes it one or none does.
fn may_give(role: Role, is_open: bool, function: bool, form: bool) -> bool
    ensures { result ≡ may_give role is_open function form }
{
    match role {
        Role::Adds => function && !form,
        Role::Makes(what) => {
            if is_generic(what) {
                is_open && function
            } else {
                is_open && !function
            }
        }
    }
}

fn gives_in(definition: &Definition, all: Tally) -> bool
    ensures { result ≡ gives_in definition.now all }
{
    let function = all.what.is_some() && is_function(all.first);
    may_give(definition.role, definition.is_open, function, all.form)
}

/// What an owner's name means so far.
fn meaning_at(
    alloc: Global,
    meanings: &MeaningTable,
    owner: &Option<Owner>,
) -> Result<Option<BindingId>, AllocError>
    ensures { IfOk result (λ found. found ≡ meaning_at (meanings_in meanings.now) owner.now) }
{
    match owner {
        Some(Owner::Own(number, name)) => meanings.get(alloc, *number, name.bytes()),
        Some(Owner::Outside(_)) => Ok(None),
        None => Ok(None),
    }
}

/// Whether a definition gives its name its row, and none did before.
fn is_giver(
    alloc: Global,
    all: &TallyTable,
    meanings: &MeaningTable,
    definition: &Definition,
) -> Result<bool, AllocError>
    ensures { IfOk result (λ gives. gives
        ≡ is_giver (tallies_in all.now) (meanings_in meanings.now) definition.now) }
{
    let whole = tally_at(alloc, all, &definition.owner)?;
    let known = meaning_at(alloc, meanings, &definition.owner)?;
    Ok(gives_in(definition, whole) && known.is_none())
}

/// Whether a row stands at a definition.
fn needs_row(role: Role, is_giver: bool) -> bool
    ensures { result ≡ needs_row role is_giver }
{
    match role {
        Role::Adds => is_giver,
        Role::Makes(_) => true,
    }
}

fn next_row(what: What, rows: RowCounts) -> u32
    ensures { result ≡ next_row what rows }
{
    match what {
        What::Class => rows.classes,
        What::Generic => rows.generics,
        What::Variable | What::Constant | What::Function | What::Macro => rows.variables,
    }
}

/// One more row of a kind. The one error is want of numbers.
fn one_more(row: u32) -> Result<u32, AllocError>
    ensures { IfOk result (λ next. next ≡ row + 1) }
{
    row.checked_add(1).ok_or(AllocError)
}

fn counted(what: What, rows: RowCounts) -> Result<RowCounts, AllocError>
    ensures { IfOk result (λ after. after ≡ one_more what rows) }
{
    let mut after = rows;
    match what {
        What::Class => after.classes = one_more(rows.classes)?,
        What::Generic => after.generics = one_more(rows.generics)?,
        What::Variable | What::Constant | What::Function | What::Macro => {
            after.variables = one_more(rows.variables)?;
        }
    }
    Ok(after)
}

fn rows_after(has_row: bool, what: What, rows: RowCounts) -> Result<RowCounts, AllocError>
    ensures { IfOk result (λ after. after ≡ rows_after has_row what rows) }
{
    if has_row {
        counted(what, rows)
    } else {
        Ok(rows)
    }
}

/// Gives an owner's name a meaning.
fn give(
    alloc: Global,
    gives: bool,
    owner: &Option<Owner>,
    id: BindingId,
    meanings: &mut MeaningTable,
) -> Result<(), AllocError>
    ensures { OnOk result (meanings_in meanings.new
        ≡ with_meaning gives owner.now id (meanings_in meanings.old)) }
{
    if !gives {
        return Ok(());
    }
    match owner {
        Some(Owner::Own(number, name)) => meanings.set(alloc, *number, name.bytes(), id),
        Some(Owner::Outside(_)) => Ok(()),
        None => Ok(()),
    }
}

/// Gives the name of a definition its meaning, where this definition does, and answers the rows
/// that there are then.
fn define(
    alloc: Global,
    library: u32,
    all: &TallyTable,
    definition: &Definition,
    rows: RowCounts,
    meanings: &mut MeaningTable,
) -> Result<RowCounts, AllocError>
    ensures rows { IfOk result (λ after. after
        ≡ rows_with library (tallies_in all.now) definition.now rows (meanings_in meanings.old)) }
    ensures meanings { OnOk result (meanings_in meanings.new
        ≡ meanings_after library (tallies_in all.now) definition.now rows
        (meanings_in meanings.old)) }
{
    let what = what_made(definition.role);
    let row = next_row(what, rows);
    let id = BindingId {
        what,
        at: Ref { library, row },
    };
    let gives = is_giver(alloc, all, meanings, definition)?;
    give(alloc, gives, &definition.owner, id, meanings)?;
    rows_after(needs_row(definition.role, gives), what, rows)
}

/// What the names that the library's modules own mean by these definitions.
pub fn meanings_of(
    alloc: Global,
    library: u32,
    all: &TallyTable,
    definitions: &[Definition],
) -> Result<MeaningTable, AllocError>
    ensures { IfOk result (λ table. meanings_in table
        ≡ meanings_with library (tallies_in all.now) definitions.now no_rows no_meanings) }
{
    let mut meanings = MeaningTable::new(alloc);
    let mut rows = RowCounts {
        classes: 0,
        generics: 0,
        variables: 0,
    };
    for definition in definitions {
        rows = define(alloc, library, all, definition, rows, &mut meanings)?;
    }
    Ok(meanings)
}
