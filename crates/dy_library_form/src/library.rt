//! The form of a library: what it imports and exports, and its faults.

ghost use Rattle.std.specs.Prelude.{◌≡◌, ◌++◌, [], slice_get, IfOk, OnOk};
ghost use Rattle.dy_module_numbers.specs.Numbers as numbers;
ghost use Rattle.std.specs.Option.{option_copied, option_map};
ghost use Rattle.dy_library_form.specs.Library as spec;
ghost use Rattle.dy_library_form.specs.Told as told;

use crate::found::{Found, tell};
use crate::missing::{brought_names, missing};
use dy_base::{Exports, Items, Kind, Name, NameList, Place, Text};
use dy_module_forms::{Clause, Form, Placed, UseOption};
use dy_module_numbers::{Naming, add_modules, brought_modules, is_other, number_of, use_clause};
use dy_modules::{ModuleForm, NameSet, UseClause, picked};
use std::alloc::{AllocError, Global};

/// What used libraries export.
#[derive(Clone, Copy)]
pub struct Used<'a> {
    pub exports: &'a [Exports],
    /// For each of them its modules, by name, with their numbers.
    pub libraries: &'a [NameList<usize>],
    /// All modules, by number.
    pub forms: &'a [ModuleForm],
}

/// What is known of the library when the form's clauses up to some place were read.
#[derive(Drop)]
pub struct Reading {
    /// The modules that it imports.
    pub imported: NameList<usize>,
    /// Whether a name was found that means two modules.
    pub is_clashing: bool,
    pub found: Items<Found>,
}

/// The place of a library among those that are used.
fn place_of(exports: &[Exports], name: &Name) -> Option<usize>
    ensures { result ≡ spec.place_of exports.now name.now }
{
    exports
        .iter()
        .position(|library| library.library.bytes() == name.bytes())
}

fn add_name(
    alloc: Global,
    row: Option<(&[u8], &usize)>,
    set: &mut NameSet,
) -> Result<(), AllocError>
    ensures { OnOk result (set.new ≡ told.with_row_name set.old
        (option_map (λ p. (p.0.now, p.1.now)) row.entry)) }
{
    match row {
        Some((name, _)) => set.add(alloc, name),
        None => Ok(()),
    }
}

/// The names of a table.
fn names_of(alloc: Global, modules: &NameList<usize>) -> Result<NameSet, AllocError>
    ensures { IfOk result (λ set. set ≡ spec.names_of modules.now) }
{
    let mut set = NameSet::new(alloc);
    for place in 0..modules.len() {
        add_name(alloc, modules.at(place), &mut set)?;
    }
    Ok(set)
}

/// The names that mean two modules.
fn clashing(
    alloc: Global,
    forms: &[ModuleForm],
    visible: &NameList<usize>,
    pairs: &[(Text, usize)],
) -> Result<NameList<()>, AllocError>
    ensures { IfOk result (λ list. list ≡ spec.clashing_list forms.now visible.now pairs.now) }
{
    let mut list = NameList::new(alloc);
    for (name, number) in pairs {
        if is_other(forms, visible.get(name.bytes()).copied(), *number) {
            list.set(alloc, name.bytes(), ())?;
        }
    }
    Ok(list)
}

fn row_name(alloc: Global, row: Option<(&[u8], &())>) -> Result<Option<Text>, AllocError>
    ensures { IfOk result (λ name. name
        ≡ spec.row_name (option_map (λ p. (p.0.now, p.1.now)) row.entry)) }
{
    match row {
        Some((name, _)) => Ok(Some(Text::of(alloc, name)?)),
        None => Ok(None),
    }
}

/// The name at a place of a list.
fn name_at(
    alloc: Global,
    list: &NameList<()>,
    place: Option<&usize>,
) -> Result<Option<Text>, AllocError>
    ensures { IfOk result (λ name. name
        ≡ spec.name_at list.now (option_copied place.entry)) }
{
    match place {
        Some(place) => row_name(alloc, list.at(*place)),
        None => Ok(None),
    }
}

/// The first name by its bytes.
pub fn least_name(alloc: Global, list: &NameList<()>) -> Result<Option<Text>, AllocError>
    ensures { IfOk result (λ name. name ≡ spec.least_name list.now) }
{
    let places = list.sorted_places(alloc)?;
    let name = name_at(alloc, list, places.first())?;
    Ok(name)
}

/// Tells that a name means two modules. Only the first such name is told.
fn note_clash(
    alloc: Global,
    place: Place,
    name: Option<Text>,
    reading: &mut Reading,
) -> Result<(), AllocError>
    ensures { OnOk result (reading.new ≡ spec.with_clash reading.old place name) }
{
    match name {
        Some(name) => {
            reading.is_clashing = true;
            tell(
                alloc,
                Kind::NameClash,
                place,
                name.bytes(),
                &mut reading.found,
            )
        }
        None => Ok(()),
    }
}

fn tell_clash(
    alloc: Global,
    used: Used<'_>,
    place: Place,
    pairs: &[(Text, usize)],
    reading: &mut Reading,
) -> Result<(), AllocError>
    ensures { OnOk result (reading.new
        ≡ spec.told_clash used.entry.forms.now place pairs.now reading.old) }
{
    if reading.is_clashing {
        return Ok(());
    }
    let names = clashing(alloc, used.forms, &reading.imported, pairs)?;
    let name = least_name(alloc, &names)?;
    note_clash(alloc, place, name, reading)
}

/// Tells a name of options that is not exported to their clause.
pub fn tell_missing(
    alloc: Global,
    place: Place,
    u: &UseClause,
    exported: &NameSet,
    options: &[UseOption],
    found: &mut Items<Found>,
) -> Result<(), AllocError>
    ensures { OnOk result (found.new
        ≡ found.old ++ told.not_exported place u.now exported.now
        options.now) }
{
    let brought = brought_names(alloc, u, exported)?;
    match missing(options, exported, &brought) {
        Some(name) => tell(alloc, Kind::NotExported, place, name.bytes(), found),
        None => Ok(()),
    }
}

/// Reads a use clause of a library that exports these modules.
fn read_modules(
    alloc: Global,
    used: Used<'_>,
    place: Place,
    u: &UseClause,
    options: &[UseOption],
    modules: &NameList<usize>,
    reading: &mut Reading,
) -> Result<(), AllocError>
    ensures { OnOk result (reading.new
        ≡ spec.after_rows used.entry.forms.now place u.now options.now modules.now reading.old) }
{
    let pairs = brought_modules(alloc, u, modules)?;
    add_modules(alloc, pairs.as_slice(), &mut reading.imported)?;
    tell_clash(alloc, used, place, pairs.as_slice(), reading)?;
    let exported = names_of(alloc, modules)?;
    tell_missing(alloc, place, u, &exported, options, &mut reading.found)
}

fn read_use(
    alloc: Global,
    used: Used<'_>,
    place: Place,
    library: usize,
    options: &[UseOption],
    reading: &mut Reading,
) -> Result<(), AllocError>
    ensures { OnOk result (reading.new
        ≡ spec.after_modules used.entry.forms.now place library options.now
        (slice_get used.entry.libraries.now library) reading.old) }
{
    let u = use_clause(alloc, library, options)?;
    match used.libraries.get(library) {
        Some(modules) => read_modules(alloc, used, place, &u, options, modules, reading),
        None => Ok(()),
    }
}

fn read_clause(
    alloc: Global,
    used: Used<'_>,
    placed: &Placed,
    reading: &mut Reading,
) -> Result<(), AllocError>
    ensures { OnOk result (reading.new
        ≡ spec.after_clause used.entry.exports.now used.entry.libraries.now used.entry.forms.now
        placed.now.place placed.now.clause reading.old) }
{
    match &placed.clause {
        Clause::Use(name, options) => match place_of(used.exports, name) {
            Some(library) => read_use(
                alloc,
                used,
                placed.place,
                library,
                options.as_slice(),
                reading,
            ),
            None => tell(
                alloc,
                Kind::UnknownLibrary,
                placed.place,
                name.bytes(),
                &mut reading.found,
            ),
        },
        Clause::Export(_) => Ok(()),
        Clause::Create(_) => Ok(()),
    }
}

/// What the use clauses of a library import, and their faults.
pub fn read_uses(alloc: Global, used: Used<'_>, form: &Form) -> Result<Reading, AllocError>
    ensures { IfOk result (λ reading. reading
        ≡ spec.after_clauses used.entry.exports.now used.entry.libraries.now used.entry.forms.now
        form.now.clauses spec.nothing_read) }
{
    let mut reading = Reading {
        imported: NameList::new(alloc),
        is_clashing: false,
        found: Items::new(alloc),
    };
    for placed in form.clauses.as_slice() {
        read_clause(alloc, used, placed, &mut reading)?;
    }
    Ok(reading)
}

fn unknown_name<'a>(naming: &Naming, names: &'a [Name]) -> Option<&'a Name>
    ensures { option_map (λ name. name.now) result
        ≡ spec.unknown_name naming.now.own naming.now.imported names.now }
{
    for name in names {
        if number_of(&naming.own, &naming.imported, name.bytes()).is_none() {
            return Some(name);
        }
    }
    None
}

fn tell_unknown(
    alloc: Global,
    naming: &Naming,
    placed: &Placed,
    found: &mut Items<Found>,
) -> Result<(), AllocError>
    ensures { OnOk result (found.new
        ≡ found.old ++ spec.unknown_in naming.now.own naming.now.imported placed.now.place
        placed.now.clause) }
{
    match &placed.clause {
        Clause::Export(names) => match unknown_name(naming, names.as_slice()) {
            Some(name) => tell(
                alloc,
                Kind::UnknownModule,
                placed.place,
                name.bytes(),
                found,
            ),
            None => Ok(()),
        },
        Clause::Use(_, _) => Ok(()),
        Clause::Create(_) => Ok(()),
    }
}

/// Tells the first module of each export clause of a library that does not exist.
pub fn tell_unknown_exports(
    alloc: Global,
    naming: &Naming,
    form: &Form,
    found: &mut Items<Found>,
) -> Result<(), AllocError>
    ensures { OnOk result (found.new
        ≡ found.old ++ spec.unknown_exports naming.now.own naming.now.imported form.now.clauses) }
{
    for placed in form.clauses.as_slice() {
        tell_unknown(alloc, naming, placed, found)?;
    }
    Ok(())
}

fn tell_misnamed(
    alloc: Global,
    library: &Name,
    form: &Form,
    found: &mut Items<Found>,
) -> Result<(), AllocError>
    ensures { OnOk result (found.new ≡ found.old ++ told.misnamed library.now form.now) }
{
    if form.name.bytes() == library.bytes() {
        return Ok(());
    }
    tell(
        alloc,
        Kind::UnknownLibrary,
        form.place,
        form.name.bytes(),
        found,
    )
}

/// Tells the form of a library where it is named otherwise, and those behind it.
pub fn tell_forms(
    alloc: Global,
    library: &Name,
    first: &Form,
    others: &[Form],
    found: &mut Items<Found>,
) -> Result<(), AllocError>
    ensures { OnOk result (found.new ≡ found.old ++ (told.misnamed library.now first.now
        ++ told.doubled others.now)) }
{
    tell_misnamed(alloc, library, first, found)?;
    for form in others {
        tell(
            alloc,
            Kind::UnknownLibrary,
            form.place,
            form.name.bytes(),
            found,
        )?;
    }
    Ok(())
}

fn export_name(
    alloc: Global,
    naming: &Naming,
    name: &Name,
    shown: &mut NameList<usize>,
) -> Result<(), AllocError>
    ensures { OnOk result (shown.new ≡ spec.with_shown shown.old name.now
        (numbers.number_of naming.now.own naming.now.imported name.now)) }
{
    match number_of(&naming.own, &naming.imported, name.bytes()) {
        Some(number) => shown.set(alloc, name.bytes(), number),
        None => Ok(()),
    }
}

fn export_names(
    alloc: Global,
    naming: &Naming,
    names: &[Name],
    shown: &mut NameList<usize>,
) -> Result<(), AllocError>
    ensures { OnOk result (shown.new
        ≡ spec.shown_names naming.now.own naming.now.imported shown.old names.now) }
{
    for name in names {
        export_name(alloc, naming, name, shown)?;
    }
    Ok(())
}

fn export_row(
    alloc: Global,
    u: &UseClause,
    row: Option<(&[u8], &usize)>,
    shown: &mut NameList<usize>,
) -> Result<(), AllocError>
    ensures { OnOk result (shown.new ≡ spec.shown_row u.now shown.old
        (option_map (λ p. (p.0.now, p.1.now)) row.entry)) }
{
    let Some((name, number)) = row else {
        return Ok(());
    };
    match picked(alloc, true, u, name)? {
        Some(new) => shown.set(alloc, &new, *number),
        None => Ok(()),
    }
}

fn export_again(
    alloc: Global,
    u: &UseClause,
    modules: &NameList<usize>,
    shown: &mut NameList<usize>,
) -> Result<(), AllocError>
    ensures { OnOk result (shown.new ≡ spec.shown_again u.now shown.old modules.now) }
{
    for place in 0..modules.len() {
        export_row(alloc, u, modules.at(place), shown)?;
    }
    Ok(())
}

fn export_used(
    alloc: Global,
    used: Used<'_>,
    name: &Name,
    options: &[UseOption],
    shown: &mut NameList<usize>,
) -> Result<(), AllocError>
    ensures { OnOk result (shown.new ≡ spec.shown_used used.entry.libraries.now options.now
        shown.old (spec.place_of used.entry.exports.now name.now)) }
{
    let Some(library) = place_of(used.exports, name) else {
        return Ok(());
    };
    let u = use_clause(alloc, library, options)?;
    match used.libraries.get(library) {
        Some(modules) => export_again(alloc, &u, modules, shown),
        None => Ok(()),
    }
}

fn export_clause(
    alloc: Global,
    used: Used<'_>,
    naming: &Naming,
    clause: &Clause,
    shown: &mut NameList<usize>,
) -> Result<(), AllocError>
    ensures { OnOk result (shown.new ≡ spec.shown_by used.entry.exports.now
        used.entry.libraries.now naming.now.own naming.now.imported shown.old clause.now) }
{
    match clause {
        Clause::Export(names) => export_names(alloc, naming, names.as_slice(), shown),
        Clause::Use(name, options) => export_used(alloc, used, name, options.as_slice(), shown),
        Clause::Create(_) => Ok(()),
    }
}

/// The modules that a library exports, with their numbers.
pub fn shown_modules(
    alloc: Global,
    used: Used<'_>,
    naming: &Naming,
    form: &Form,
) -> Result<NameList<usize>, AllocError>
    ensures { IfOk result (λ shown. shown ≡ spec.shown_modules used.entry.exports.now
        used.entry.libraries.now naming.now.own naming.now.imported [] form.now.clauses) }
{
    let mut shown = NameList::new(alloc);
    for placed in form.clauses.as_slice() {
        export_clause(alloc, used, naming, &placed.clause, &mut shown)?;
    }
    Ok(shown)
}
