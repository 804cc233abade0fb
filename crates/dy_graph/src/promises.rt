//! The names that modules promise.

ghost use Rattle.std.specs.Prelude.{◌≡◌, ◌++◌, [], true, map as list_map, slice_get, List};
ghost use Rattle.std.specs.Prelude.{IfOk, OnOk, Some, None};
ghost use Rattle.std.specs.Option.{option_map};
ghost use Rattle.std.specs.FinMap as map;
ghost use Rattle.dy_base.specs.Tables.{table_of};
ghost use Rattle.dy_module_tables.specs.declared.promise.Promise as promise;
ghost use Rattle.dy_modules.specs.Order.{is_made};
ghost use Rattle.dy_graph.specs.Faults.{AreMade};
ghost use Rattle.dy_module_numbers.specs.Options as said;
ghost use Rattle.dy_graph.specs.Judged as spec;
ghost use Rattle.dy_graph.specs.Judged.{Promises, promise_of, ArePromisedBy};
ghost use Rattle.dy_graph.specs.Judged.{ArePromises, AreAllPromises};

use crate::judging::Made;
use dy_base::{Items, Name, NameList, Place, fold};
use dy_module_forms::{Clause, Form, Placed, UseOption};
use dy_module_numbers::{Naming, exported, source_of, use_clause};
use dy_module_tables::Promise;
use dy_modules::{Cell, UseClause, brought};
use std::alloc::{AllocError, Global};

fn promise_names(
    alloc: Global,
    number: usize,
    place: Place,
    names: &[Name],
    promises: &mut Items<Promise>,
) -> Result<(), AllocError>
    ensures { OnOk result (promises.new
        ≡ promises.old ++ list_map (promise_of number place) names.now) }
{
    for name in names {
        promises.push(Promise {
            number,
            name: fold(alloc, name.bytes())?,
            place,
        })?;
    }
    Ok(())
}

fn add_brought(
    alloc: Global,
    u: &UseClause,
    row: Option<(&[u8], &Cell)>,
    list: &mut NameList<()>,
) -> Result<(), AllocError>
    ensures { OnOk result (list.new ≡ spec.with_new_row u.now
        (option_map (λ p. (p.0.now, p.1.now)) row.entry) list.old) }
{
    let Some((name, _)) = row else {
        return Ok(());
    };
    match brought(alloc, u, name)? {
        Some(new) => list.set(alloc, &new, ()),
        None => Ok(()),
    }
}

/// The names that a clause brings of those of a table.
fn brought_list(
    alloc: Global,
    u: &UseClause,
    table: &NameList<Cell>,
) -> Result<NameList<()>, AllocError>
    ensures { IfOk result (λ list. list ≡ spec.new_rows u.now [] table.now) }
{
    let mut list = NameList::new(alloc);
    for place in 0..table.len() {
        add_brought(alloc, u, table.at(place), &mut list)?;
    }
    Ok(list)
}

fn promise_row(
    alloc: Global,
    number: usize,
    place: Place,
    row: Option<(&[u8], &())>,
    promises: &mut Items<Promise>,
) -> Result<(), AllocError>
    ensures { OnOk result (promises.new ≡ promises.old ++ spec.promise_of_row number place
        (option_map (λ p. (p.0.now, p.1.now)) row.entry)) }
{
    match row {
        Some((name, ())) => {
            promises.push(Promise {
                number,
                name: fold(alloc, name)?,
                place,
            })?;
            Ok(())
        }
        None => Ok(()),
    }
}

/// The names of a list, sorted by bytes.
fn promise_rows(
    alloc: Global,
    number: usize,
    place: Place,
    list: &NameList<()>,
    promises: &mut Items<Promise>,
) -> Result<(), AllocError>
    ensures { OnOk result (promises.new ≡ promises.old ++ spec.promises_of_rows number place
        (list_map Some (map.entries (table_of list.now)))) }
{
    let places = list.sorted_places(alloc)?;
    for at in &places {
        promise_row(alloc, number, place, list.at(*at), promises)?;
    }
    Ok(())
}

/// All that a clause brings, sorted by bytes.
fn promise_all(
    alloc: Global,
    number: usize,
    place: Place,
    u: &UseClause,
    table: &NameList<Cell>,
    promises: &mut Items<Promise>,
) -> Result<(), AllocError>
    ensures { OnOk result (promises.new ≡ promises.old
        ++ spec.promises_of_table number place u.now table.now) }
{
    let list = brought_list(alloc, u, table)?;
    promise_rows(alloc, number, place, &list, promises)
}

/// All that a use clause of a module brings, whose source has its table.
fn promise_brought(
    alloc: Global,
    made: Made<'_>,
    number: usize,
    place: Place,
    source: usize,
    options: &[UseOption],
    promises: &mut Items<Promise>,
) -> Result<(), AllocError>
    requires made { AreMade made.modules.now made.tables.now }
    requires ready { is_made (slice_get made.tables.now source) ≡ true }
    ensures { OnOk result (Promises number place promises.old promises.new
        (spec.AreAgain made.entry.modules.now (said.use_clause source options.now) None)) }
{
    match made.tables.get(source) {
        Some(Some(tables)) => {
            let u = use_clause(alloc, source, options)?;
            promise_all(alloc, number, place, &u, &tables.exports, promises)
        }
        Some(None) => Ok(()),
        None => Ok(()),
    }
}

/// What a use clause of a module promises, whose source has its table.
fn promise_again(
    alloc: Global,
    made: Made<'_>,
    number: usize,
    place: Place,
    source: usize,
    options: &[UseOption],
    promises: &mut Items<Promise>,
) -> Result<(), AllocError>
    requires made { AreMade made.modules.now made.tables.now }
    requires ready { is_made (slice_get made.tables.now source) ≡ true }
    ensures { OnOk result (Promises number place promises.old promises.new
        (spec.AreAgain made.entry.modules.now
        (said.use_clause source options.now)
        (said.exported options.now))) }
{
    match exported(options) {
        Some(names) => promise_names(alloc, number, place, names, promises),
        None => promise_brought(alloc, made, number, place, source, options, promises),
    }
}

fn promise_clause(
    alloc: Global,
    naming: &Naming,
    made: Made<'_>,
    number: usize,
    placed: &Placed,
    promises: &mut Items<Promise>,
) -> Result<(), AllocError>
    requires made { AreMade made.modules.now made.tables.now }
    requires ready { spec.AreReady naming.now.own naming.now.imported naming.now.nothing
        made.tables.now }
    ensures { OnOk result (Promises number placed.now.place promises.old promises.new
        (ArePromisedBy naming.now.own naming.now.imported naming.now.nothing
        made.entry.modules.now placed.now.clause)) }
{
    let place = placed.place;
    match &placed.clause {
        Clause::Export(names) => promise_names(alloc, number, place, names.as_slice(), promises),
        Clause::Create(names) => promise_names(alloc, number, place, names.as_slice(), promises),
        Clause::Use(name, options) => {
            let source = source_of(naming, name.bytes());
            promise_again(
                alloc,
                made,
                number,
                place,
                source,
                options.as_slice(),
                promises,
            )
        }
    }
}

fn promise_form(
    alloc: Global,
    naming: &Naming,
    made: Made<'_>,
    number: usize,
    form: &Form,
    promises: &mut Items<Promise>,
) -> Result<(), AllocError>
    requires made { AreMade made.modules.now made.tables.now }
    requires ready { spec.AreReady naming.now.own naming.now.imported naming.now.nothing
        made.tables.now }
    ensures { OnOk result ((here : List promise.Promise)
        × ArePromises naming.now.own naming.now.imported naming.now.nothing
        made.entry.modules.now number form.now.clauses here
        × (promises.new ≡ promises.old ++ here)) }
{
    for placed in form.clauses.as_slice() {
        promise_clause(alloc, naming, made, number, placed, promises)?;
    }
    Ok(())
}

/// The names that modules export or create, by their clauses and then by their places there.
pub(crate) fn promises(
    alloc: Global,
    naming: &Naming,
    made: Made<'_>,
    forms: &[Form],
) -> Result<Items<Promise>, AllocError>
    requires made { AreMade made.modules.now made.tables.now }
    requires ready { spec.AreReady naming.now.own naming.now.imported naming.now.nothing
        made.tables.now }
    ensures { IfOk result (λ list. AreAllPromises naming.now.own naming.now.imported
        naming.now.nothing made.entry.modules.now 0 forms.now list) }
{
    let mut promises = Items::new(alloc);
    for (number, form) in forms.iter().enumerate() {
        promise_form(alloc, naming, made, number, form, &mut promises)?;
    }
    Ok(promises)
}
