//! Names that use clauses give two owners.

ghost use Rattle.std.specs.Prelude.{◌≡◌, ◌++◌, true, length, IfOk, OnOk, [], Some, None};
ghost use Rattle.std.specs.Prelude.{slice_get, map as list_map};
ghost use Rattle.std.specs.Option.{option_map};
ghost use Rattle.std.specs.FinMap as map;
ghost use Rattle.dy_base.specs.Tables.{table_of};
ghost use Rattle.dy_modules.specs.Builds.{is_clear};
ghost use Rattle.dy_modules.specs.Order.{all_rows, is_made, is_ready};
ghost use Rattle.dy_modules.specs.Clash.{OneOwner, Clashes};
ghost use Rattle.dy_module_numbers.specs.Modules.{module_form};
ghost use Rattle.dy_library_form.specs.Told as spec;
ghost use Rattle.dy_graph.specs.Faults as faults;
ghost use Rattle.dy_graph.specs.Faults.{AreMade, Adds, IsSingle, LeastTwo, IsClashOf};

use crate::judging::Made;
use dy_base::{Items, Kind, NameList, Place, Text};
use dy_library_form::{Found, tell};
use dy_module_forms::{Clause, Form, Placed};
use dy_module_numbers::Naming;
use dy_modules::{Cell, ModuleForm, ModuleTables, UseClause, bring_from, first_clash};
use std::alloc::{AllocError, Global};

/// The name of a row that has two owners.
fn name_of_two<'a>(row: Option<(&'a [u8], &Cell)>) -> Option<&'a [u8]>
    ensures { option_map (λ name. name.now) result
        ≡ spec.name_of_two (option_map (λ p. (p.0.now, p.1.now)) row.entry) }
{
    match row {
        Some((name, Cell::Many)) => Some(name),
        Some((_, Cell::One(_))) => None,
        None => None,
    }
}

/// Whether each name of a table has one owner.
fn is_single(table: &NameList<Cell>) -> bool
    ensures { result ≡ is_clear table.now }
{
    for place in 0..table.len() {
        if name_of_two(table.at(place)).is_some() {
            return false;
        }
    }
    true
}

/// The first name of a table, by its bytes, that has two owners.
fn first_of_two(alloc: Global, table: &NameList<Cell>) -> Result<Option<Text>, AllocError>
    ensures { IfOk result (λ name. name
        ≡ spec.first_of_two (list_map Some (map.entries (table_of table.now)))) }
{
    let places = table.sorted_places(alloc)?;
    for place in &places {
        if let Some(name) = name_of_two(table.at(*place)) {
            return Ok(Some(Text::of(alloc, name)?));
        }
    }
    Ok(None)
}

/// The first name, by its bytes, to which these clauses bring two owners.
fn name_of_clash(
    alloc: Global,
    uses: &[UseClause],
    tables: &[Option<ModuleTables>],
) -> Result<Option<Text>, AllocError>
    ensures { IfOk result (λ name. LeastTwo (all_rows tables.now) uses.now name) }
{
    let mut table = NameList::new(alloc);
    for u in uses {
        bring_from(alloc, false, u, tables, &mut table)?;
    }
    let name = first_of_two(alloc, &table)?;
    Ok(name)
}

fn add_use_place(placed: &Placed, places: &mut Items<Place>) -> Result<(), AllocError>
    ensures { OnOk result (places.new
        ≡ places.old ++ faults.place_if_use placed.now.place placed.now.clause []) }
{
    match &placed.clause {
        Clause::Use(_, _) => {
            places.push(placed.place)?;
            Ok(())
        }
        Clause::Export(_) => Ok(()),
        Clause::Create(_) => Ok(()),
    }
}

/// The places of the use clauses of a form.
fn use_places(alloc: Global, clauses: &[Placed]) -> Result<Items<Place>, AllocError>
    ensures { IfOk result (λ places. places ≡ faults.use_places clauses.now) }
{
    let mut places = Items::new(alloc);
    for placed in clauses {
        add_use_place(placed, &mut places)?;
    }
    Ok(places)
}

fn with_number(number: usize, name: Option<Text>) -> Option<(usize, Text)>
    ensures { result ≡ option_map (λ n. (number, n)) name }
{
    match name {
        Some(name) => Some((number, name)),
        None => None,
    }
}

/// The use clause of this number, where it is the first by which a name has two owners, and the
/// first such name.
fn clash_at(
    alloc: Global,
    made: Made<'_>,
    uses: &[UseClause],
    number: usize,
) -> Result<Option<(usize, Text)>, AllocError>
    requires made { AreMade made.modules.now made.tables.now }
    requires ready { is_ready made.tables.now uses.now ≡ true }
    requires clashes { Clashes made.modules.now uses.now (Some number) }
    ensures { IfOk result (λ clash. IsClashOf made.entry.modules.now uses.now clash) }
{
    match uses.get(..=number) {
        Some(front) => {
            let name = name_of_clash(alloc, front, made.tables)?;
            Ok(with_number(number, name))
        }
        None => Ok(None),
    }
}

/// The first use clause of a module by which a name has two owners, and the first such name.
fn clash_of(
    alloc: Global,
    made: Made<'_>,
    uses: &[UseClause],
) -> Result<Option<(usize, Text)>, AllocError>
    requires made { AreMade made.modules.now made.tables.now }
    requires ready { is_ready made.tables.now uses.now ≡ true }
    ensures { IfOk result (λ clash. IsClashOf made.entry.modules.now uses.now clash) }
{
    let first = first_clash(alloc, uses, made.tables)?;
    match first {
        Some(number) => clash_at(alloc, made, uses, number),
        None => Ok(None),
    }
}

/// Tells a clash at the use clause of this number.
fn tell_at_use(
    alloc: Global,
    clauses: &[Placed],
    number: usize,
    name: &Text,
    found: &mut Items<Found>,
) -> Result<(), AllocError>
    ensures { OnOk result (found.new ≡ found.old
        ++ faults.told_clash (slice_get (faults.use_places clauses.now) number) name.now) }
{
    let places = use_places(alloc, clauses)?;
    match places.as_slice().get(number) {
        Some(place) => tell(alloc, Kind::NameClash, *place, name.bytes(), found),
        None => Ok(()),
    }
}

fn tell_clash_of(
    alloc: Global,
    made: Made<'_>,
    uses: &[UseClause],
    clauses: &[Placed],
    found: &mut Items<Found>,
) -> Result<(), AllocError>
    requires made { AreMade made.modules.now made.tables.now }
    requires ready { is_ready made.tables.now uses.now ≡ true }
    requires places { length (faults.use_places clauses.now) ≡ length uses.now }
    ensures adds { OnOk result (Adds found.old found.new
        (faults.IsClashFault made.entry.modules.now uses.now (faults.use_places clauses.now))) }
    ensures quiet { OnOk result (found.new ≡ []
        → OneOwner made.entry.modules.now uses.now) }
{
    let clash = clash_of(alloc, made, uses)?;
    match clash {
        Some((number, name)) => tell_at_use(alloc, clauses, number, &name, found),
        None => Ok(()),
    }
}

/// Tells the first use clause of a module, by its number, by which a name has two owners. These are
/// its tables.
fn tell_clash_among(
    alloc: Global,
    naming: &Naming,
    made: Made<'_>,
    number: usize,
    tables: &ModuleTables,
    form: &Form,
    found: &mut Items<Found>,
) -> Result<(), AllocError>
    requires made { AreMade made.modules.now made.tables.now }
    requires of { slice_get made.modules.now number ≡ Some (module_form naming.now.own
        naming.now.imported naming.now.nothing number form.now) }
    requires at { slice_get made.tables.now number ≡ Some (Some tables.now) }
    ensures adds { OnOk result (Adds found.old found.new
        (faults.IsOwnClash made.entry.modules.now number form.now)) }
    ensures quiet { OnOk result (found.new ≡ [] → IsSingle made.entry.modules.now number) }
{
    if is_single(&tables.imports) {
        return Ok(());
    }
    match made.modules.get(number) {
        Some(own) => tell_clash_of(
            alloc,
            made,
            own.uses.as_slice(),
            form.clauses.as_slice(),
            found,
        ),
        None => Ok(()),
    }
}

/// Tells the first use clause of a module by which a name has two owners.
pub(crate) fn tell_clash(
    alloc: Global,
    naming: &Naming,
    made: Made<'_>,
    number: usize,
    form: &Form,
    found: &mut Items<Found>,
) -> Result<(), AllocError>
    requires made { AreMade made.modules.now made.tables.now }
    requires of { slice_get made.modules.now number ≡ Some (module_form naming.now.own
        naming.now.imported naming.now.nothing number form.now) }
    ensures adds { OnOk result (Adds found.old found.new
        (faults.IsOwnClash made.entry.modules.now number form.now)) }
    ensures quiet { OnOk result (found.new ≡ []
        → is_made (slice_get made.entry.tables.now number) ≡ true
        → IsSingle made.entry.modules.now number) }
{
    match made.tables.get(number) {
        Some(Some(tables)) => tell_clash_among(alloc, naming, made, number, tables, form, found),
        Some(None) => Ok(()),
        None => Ok(()),
    }
}
