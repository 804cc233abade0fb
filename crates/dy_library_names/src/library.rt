//! A library and its names.

ghost use Rattle.std.specs.Prelude.{◌≡◌, map, IfOk};
ghost use Rattle.dy_term.specs.Rows.{seen_draft};
ghost use Rattle.dy_library_rows.specs.Libraries.{seen_form, or_fault};
ghost use Rattle.dy_library_names.specs.Named.{IsJudged, IsAssembled, IsNamed};

use crate::closing::close;
use crate::early::first_early;
use crate::reading::{Read, read_table};
use crate::telling::{tell_all, tell_undefined};
use dy_assembly::{Heading, assemble};
use dy_base::{Fault, Items, Place, Refusal};
use dy_definitions::Defined;
use dy_module_names::{LibraryDefinitions, TableNames};
use dy_module_tables::ModuleTable;
use dy_term::{Draft, LibraryRow, Row};
use dy_tree::Words;
use std::alloc::{AllocError, Global};

/// A library with whose names nothing is wrong.
#[derive(Drop)]
pub struct Named {
    pub library: LibraryRow,
    /// Its modules, in which each name that it defines has its row.
    pub table: ModuleTable,
}

/// What is read of a library, and its first fault.
#[derive(Drop)]
pub struct Judged {
    /// The rows of those forms with whose names nothing is wrong.
    pub rows: Items<Row>,
    /// Its modules, in which each name that it defines has its row.
    pub table: ModuleTable,
    pub first: Option<Fault>,
}

fn or_fault(first: Option<Fault>, other: Option<Fault>) -> Option<Fault>
    ensures { result ≡ or_fault first other }
{
    match first {
        Some(fault) => Some(fault),
        None => other,
    }
}

fn judge(
    alloc: Global,
    library: u32,
    words: &Words,
    table: ModuleTable,
    doubled: Items<Fault>,
    forms: &[(Place, Draft)],
) -> Result<Judged, AllocError>
    ensures { IfOk result (λ judged. IsJudged table library words.now.items doubled
        (map seen_form forms.now) judged) }
{
    let given = LibraryDefinitions::of_forms(alloc, library, words, table, forms)?;
    let LibraryDefinitions {
        modules,
        definitions,
        defined,
    } = given;
    let Defined {
        meanings,
        redefined,
    } = defined;
    let list = definitions.as_slice();
    let early = first_early(alloc, list, forms)?;
    let table = close(alloc, modules, &meanings, list)?;
    let lacking = table.lacking(alloc)?;
    let read = read_table(alloc, &table, forms)?;
    let Read {
        rows,
        mut names,
        limits,
    } = read;
    tell_all(&mut names, doubled);
    tell_all(&mut names, redefined);
    let promised = lacking.as_slice();
    tell_undefined(alloc, &mut names, promised)?;
    let late = or_fault(names.first, limits.first);
    let first = or_fault(early, late);
    Ok(Judged { rows, table, first })
}

/// The library of these rows of its forms, where names mean what the table says.
fn assemble_named(
    alloc: Global,
    heading: Heading,
    table: ModuleTable,
    forms: &[(Place, Draft)],
    rows: Items<Row>,
) -> Result<Named, AllocError>
    ensures { IfOk result (λ named. IsAssembled table heading
        (map (λ f. seen_draft f.1) forms.now) rows named) }
{
    let names = TableNames::of(&table);
    let library = assemble(alloc, heading, &names, forms, rows)?;
    Ok(Named { library, table })
}

/// A library of its forms, and the table of its modules in which each name that it defines has its
/// row, where this is its name, its number in the load order and what it uses, these are the words
/// that are known, and this is the table of its modules, in which nothing is defined; or its first
/// fault. `doubled` has the faults of modules whose names are taken, as `redefined` of `dy_doubled`
/// gives them.
///
/// First comes `Syntax` at the first form that comes early (own): a constant that stands for a
/// type, or a form that adds a method, a getter or a setter to a generic function which has one, of
/// this library, in whichever module it stands, or which is one of another library.
///
/// Behind them come the faults of names. Of them all the first is that at the earliest place, then
/// of the smaller kind, then in front: `Unbound`, `NotAssignable`, `NotAType` and what is wrong
/// with a type in a form, those that are `doubled`, `Redefined` at the form of a definition that is
/// one too many, and `Unbound` at the clause of a name that a module exports or creates and that
/// has no definition. Behind them comes `Limit` at a form that has more than 8 required parameters
/// somewhere (own).
pub fn name_library(
    alloc: Global,
    heading: Heading,
    words: &Words,
    table: ModuleTable,
    doubled: Items<Fault>,
    forms: &[(Place, Draft)],
) -> Result<Named, Refusal>
    ensures { IsNamed table heading words.now.items doubled (map seen_form forms.now) result }
{
    let judged = judge(alloc, heading.number, words, table, doubled, forms)?;
    let Judged { rows, table, first } = judged;
    match first {
        None => Ok(assemble_named(alloc, heading, table, forms, rows)?),
        Some(fault) => Err(Refusal::Fault(fault)),
    }
}
