//! The faults of the forms of modules.

ghost use Rattle.std.specs.Prelude.{◌≡◌, ◌++◌, ◌<◌, ◌↔◌, ℕ, true, length, slice_get, IfOk, OnOk};
ghost use Rattle.std.specs.Prelude.{[], Some};
ghost use Rattle.std.specs.Option.{option_map};
ghost use Rattle.dy_base.specs.Tables.{names};
ghost use Rattle.dy_modules.specs.Order.{is_made};
ghost use Rattle.dy_module_numbers.specs.Options as said;
ghost use Rattle.dy_module_numbers.specs.Options.{with_names};
ghost use Rattle.dy_module_numbers.specs.Modules.{module_form};
ghost use Rattle.dy_module_numbers.specs.Rings.{Leads};
ghost use Rattle.dy_library_form.specs.Told as spec;
ghost use Rattle.dy_graph.specs.Faults as faults;
ghost use Rattle.dy_graph.specs.Faults.{AreMade, AreOfForms, Adds, IsSingle};

use crate::clash::tell_clash;
use dy_base::{Items, Kind, Name, NameList, Place};
use dy_library_form::{Found, name_something, tell, tell_missing};
use dy_module_forms::{Clause, Form, Placed, UseOption};
use dy_module_numbers::{Naming, is_on_ring, number_of, use_clause};
use dy_modules::{Cell, ModuleForm, ModuleTables, NameSet};
use std::alloc::{AllocError, Global};

/// The modules of a library with their tables.
#[derive(Clone, Copy)]
pub(crate) struct Made<'a> {
    pub(crate) modules: &'a [ModuleForm],
    pub(crate) tables: &'a [Option<ModuleTables>],
}

fn is_header(naming: &Naming, name: &Name) -> bool
    ensures { result ≡ spec.is_own_header naming.now.own name.now }
{
    name.bytes() == b"dylan-user".as_slice() || naming.own.has(name.bytes())
}

fn tell_header(
    alloc: Global,
    naming: &Naming,
    file: u32,
    name: &Name,
    found: &mut Items<Found>,
) -> Result<(), AllocError>
    ensures { OnOk result (found.new
        ≡ found.old ++ spec.unknown_header naming.now.own file name.now) }
{
    if is_header(naming, name) {
        return Ok(());
    }
    let place = Place { file, offset: 0 };
    tell(alloc, Kind::UnknownModule, place, name.bytes(), found)
}

/// Tells header modules that the library does not have, each at line 1 of its file.
pub(crate) fn tell_headers(
    alloc: Global,
    naming: &Naming,
    headers: &[Name],
    found: &mut Items<Found>,
) -> Result<(), AllocError>
    ensures { OnOk result (found.new
        ≡ found.old ++ spec.unknown_headers naming.now.own 0 headers.now) }
{
    let mut file = 0u32;
    for name in headers {
        tell_header(alloc, naming, file, name, found)?;
        file = file.wrapping_add(1);
    }
    Ok(())
}

fn is_made(tables: &[Option<ModuleTables>], number: usize) -> bool
    ensures { result ≡ is_made (slice_get tables.now number) }
{
    match tables.get(number) {
        Some(Some(_)) => true,
        Some(None) => false,
        None => false,
    }
}

fn add_name(alloc: Global, row: Option<(&[u8], &Cell)>, set: &mut NameSet) -> Result<(), AllocError>
    ensures { OnOk result (set.new ≡ spec.with_row_name set.old
        (option_map (λ p. (p.0.now, p.1.now)) row.entry)) }
{
    match row {
        Some((name, _)) => set.add(alloc, name),
        None => Ok(()),
    }
}

fn names_of(alloc: Global, table: &NameList<Cell>) -> Result<NameSet, AllocError>
    ensures { IfOk result (λ set. set ≡ with_names [] (names table.now)) }
{
    let mut set = NameSet::new(alloc);
    for place in 0..table.len() {
        add_name(alloc, table.at(place), &mut set)?;
    }
    Ok(set)
}

/// Tells a name of options that is not among the names that their source exports.
fn tell_lacking(
    alloc: Global,
    place: Place,
    source: usize,
    options: &[UseOption],
    exports: &NameList<Cell>,
    found: &mut Items<Found>,
) -> Result<(), AllocError>
    ensures { OnOk result (found.new ≡ found.old ++ spec.not_exported place
        (said.use_clause source options.now) (with_names [] (names exports.now))
        options.now) }
{
    let u = use_clause(alloc, source, options)?;
    let exported = names_of(alloc, exports)?;
    tell_missing(alloc, place, &u, &exported, options, found)
}

/// Tells a name of options that the source of a clause does not export to it.
fn tell_options(
    alloc: Global,
    made: Made<'_>,
    place: Place,
    source: usize,
    options: &[UseOption],
    found: &mut Items<Found>,
) -> Result<(), AllocError>
    requires made { AreMade made.modules.now made.tables.now }
    requires ready { is_made (slice_get made.tables.now source) ≡ true }
    ensures { OnOk result (Adds found.old found.new
        (faults.IsMissingAt made.entry.modules.now place source options.now)) }
{
    if !name_something(options) {
        return Ok(());
    }
    match made.tables.get(source) {
        Some(Some(tables)) => tell_lacking(alloc, place, source, options, &tables.exports, found),
        Some(None) => Ok(()),
        None => Ok(()),
    }
}

/// Tells the fault of a use clause of a module, by their numbers.
fn tell_use(
    alloc: Global,
    made: Made<'_>,
    number: usize,
    place: Place,
    name: &Name,
    source: Option<usize>,
    options: &[UseOption],
    found: &mut Items<Found>,
) -> Result<(), AllocError>
    requires made { AreMade made.modules.now made.tables.now }
    requires ready { faults.IsReadySource made.modules.now made.tables.now number
        source }
    ensures { OnOk result (Adds found.old found.new
        (faults.IsUseFault made.entry.modules.now number place name.now options.now source)) }
{
    match source {
        Some(source) => {
            if is_made(made.tables, number) {
                tell_options(alloc, made, place, source, options, found)
            } else {
                Ok(())
            }
        }
        None => tell(alloc, Kind::UnknownModule, place, name.bytes(), found),
    }
}

fn tell_clause(
    alloc: Global,
    naming: &Naming,
    made: Made<'_>,
    number: usize,
    placed: &Placed,
    found: &mut Items<Found>,
) -> Result<(), AllocError>
    requires made { AreMade made.modules.now made.tables.now }
    requires ready { faults.IsReadyClause naming.now.own naming.now.imported
        made.modules.now made.tables.now number placed.now.clause }
    ensures { OnOk result (Adds found.old found.new
        (faults.IsClauseFault naming.now.own naming.now.imported made.entry.modules.now number
        placed.now.place placed.now.clause)) }
{
    match &placed.clause {
        Clause::Use(name, options) => {
            let source = number_of(&naming.own, &naming.imported, name.bytes());
            tell_use(
                alloc,
                made,
                number,
                placed.place,
                name,
                source,
                options.as_slice(),
                found,
            )
        }
        Clause::Export(_) => Ok(()),
        Clause::Create(_) => Ok(()),
    }
}

fn tell_clauses(
    alloc: Global,
    naming: &Naming,
    made: Made<'_>,
    number: usize,
    form: &Form,
    found: &mut Items<Found>,
) -> Result<(), AllocError>
    requires made { AreMade made.modules.now made.tables.now }
    requires of { slice_get made.modules.now number ≡ Some (module_form naming.now.own
        naming.now.imported naming.now.nothing number form.now) }
    ensures { OnOk result (Adds found.old found.new
        (faults.AreClauseFaults naming.now.own naming.now.imported made.entry.modules.now number
        form.now.clauses)) }
{
    for placed in form.clauses.as_slice() {
        tell_clause(alloc, naming, made, number, placed, found)?;
    }
    Ok(())
}

fn tell_module(
    alloc: Global,
    naming: &Naming,
    made: Made<'_>,
    number: usize,
    form: &Form,
    found: &mut Items<Found>,
) -> Result<(), AllocError>
    requires made { AreMade made.modules.now made.tables.now }
    requires of { slice_get made.modules.now number ≡ Some (module_form naming.now.own
        naming.now.imported naming.now.nothing number form.now) }
    ensures adds { OnOk result (Adds found.old found.new
        (faults.IsModuleFault naming.now.own naming.now.imported made.entry.modules.now number
        form.now)) }
    ensures quiet { OnOk result (found.new ≡ []
        → is_made (slice_get made.entry.tables.now number) ≡ true
        → IsSingle made.entry.modules.now number) }
{
    tell_clauses(alloc, naming, made, number, form, found)?;
    tell_clash(alloc, naming, made, number, form, found)
}

/// Tells the faults of modules, but for rings.
pub(crate) fn tell_modules(
    alloc: Global,
    naming: &Naming,
    made: Made<'_>,
    forms: &[Form],
    found: &mut Items<Found>,
) -> Result<(), AllocError>
    requires made { AreMade made.modules.now made.tables.now }
    requires of { AreOfForms naming.now.own naming.now.imported naming.now.nothing
        made.modules.now forms.now }
    ensures adds { OnOk result (Adds found.old found.new
        (faults.AreModuleFaults naming.now.own naming.now.imported made.entry.modules.now
        forms.now)) }
    ensures quiet { OnOk result (found.new ≡ [] → (m : ℕ) → m < length forms.now
        → is_made (slice_get made.entry.tables.now m) ≡ true
        → IsSingle made.entry.modules.now m) }
{
    for (number, form) in forms.iter().enumerate() {
        tell_module(alloc, naming, made, number, form, found)?;
    }
    Ok(())
}

/// Whether a module stands on a ring.
fn is_ringed(alloc: Global, made: Made<'_>, number: usize) -> Result<bool, AllocError>
    requires { AreMade made.modules.now made.tables.now }
    ensures { IfOk result (λ ring. (ring ≡ true)
        ↔ Leads made.entry.modules.now number number) }
{
    if is_made(made.tables, number) {
        return Ok(false);
    }
    is_on_ring(alloc, made.modules, number)
}

/// Tells the first module that stands on a ring.
pub(crate) fn tell_ring(
    alloc: Global,
    made: Made<'_>,
    forms: &[Form],
    found: &mut Items<Found>,
) -> Result<(), AllocError>
    requires { AreMade made.modules.now made.tables.now }
    ensures { OnOk result (Adds found.old found.new
        (faults.IsRingFault made.entry.modules.now forms.now)) }
{
    for (number, form) in forms.iter().enumerate() {
        let ringed = is_ringed(alloc, made, number)?;
        if ringed {
            return tell(alloc, Kind::Cycle, form.place, form.name.bytes(), found);
        }
    }
    Ok(())
}
