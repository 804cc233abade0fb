//! The table of a library's modules.

ghost use Rattle.std.specs.Prelude.{◌≡◌, ◌≤◌, ◌<◌, true, map as list_map, IfOk, OnOk, Some, List};
ghost use Rattle.std.specs.Prelude.{ℕ};
ghost use Rattle.std.specs.Prelude.{[], ◌∷◌, length, slice_get};
ghost use Rattle.dy_modules.specs.Order.{is_made};
ghost use Rattle.std.specs.Option.{option_map};
ghost use Rattle.std.specs.FinMap as map;
ghost use Rattle.dy_base.specs.Tables.{table_of};
ghost use Rattle.dy_tree.specs.Fragments.{seen_fragments};
ghost use Rattle.dy_module_forms.specs.Forms.{forms_of};
ghost use Rattle.dy_module_numbers.specs.Sorting.{form_name};
ghost use Rattle.dy_modules.specs.Builds.{all_clear};
ghost use Rattle.dy_graph.specs.Faults.{AreMade, AreOfForms, Adds, IsSingle};
ghost use Rattle.dy_library_form.specs.declared.found.Found.{Found};
ghost use Rattle.dy_graph.specs.Judged as spec;
ghost use Rattle.dy_graph.specs.Judged.{Given, IsBegun, IsTable, IsJudged, IsAnswer};

use crate::judging::{Made, tell_headers, tell_modules, tell_ring};
use crate::promises::promises;
use dy_base::{Exports, Fault, Items, Kind, Name, NameList, Place, Refusal, Text, fold};
use dy_library_form::{
    Found, Reading, Used, first, read_uses, shown_modules, tell_forms, tell_unknown_exports,
};
use dy_module_forms::{Form, read_forms};
use dy_module_numbers::{Naming, Outside, Sorted, modules_outside, put_modules, sort_forms};
use dy_module_tables::ModuleTable;
use dy_modules::{ModuleForm, ModuleTables, NameSet, settle};
use dy_tree::Fragment;
use std::alloc::{AllocError, Global};

fn fault(alloc: Global, kind: Kind, place: Option<Place>, name: &[u8]) -> Result<Fault, AllocError>
    ensures { IfOk result (λ fault. fault ≡ spec.fault_at kind place name.now) }
{
    let mut shown = Items::new(alloc);
    shown.push(Text::of(alloc, name)?)?;
    Ok(Fault {
        kind,
        library: Text::from_vec(Vec::new(alloc)),
        place,
        shown,
        numbers: Items::new(alloc),
    })
}

fn first_line(headers: &[Name]) -> Option<Place>
    ensures { result ≡ spec.first_line headers.now }
{
    match headers.first() {
        Some(_) => Some(Place { file: 0, offset: 0 }),
        None => None,
    }
}

/// No form defines the library.
fn missing_library(alloc: Global, library: &Name, headers: &[Name]) -> Result<Fault, AllocError>
    ensures { IfOk result (λ fault. fault ≡ spec.no_library library.now headers.now) }
{
    fault(
        alloc,
        Kind::UnknownLibrary,
        first_line(headers),
        library.bytes(),
    )
}

fn push_row(
    alloc: Global,
    row: Option<(&[u8], &usize)>,
    list: &mut Items<(Name, usize)>,
) -> Result<(), AllocError>
    ensures { OnOk result (list.new ≡ spec.with_lower list.old
        (option_map (λ p. (p.0.now, p.1.now)) row.entry)) }
{
    match row {
        Some((name, number)) => {
            list.push((fold(alloc, name)?, *number))?;
            Ok(())
        }
        None => Ok(()),
    }
}

/// The modules that a library exports, sorted by bytes.
fn sorted_modules(
    alloc: Global,
    modules: &NameList<usize>,
) -> Result<Items<(Name, usize)>, AllocError>
    ensures { IfOk result (λ list. list ≡ spec.all_lower []
        (list_map Some (map.entries (table_of modules.now)))) }
{
    let mut list = Items::new(alloc);
    let places = modules.sorted_places(alloc)?;
    for place in &places {
        push_row(alloc, modules.at(*place), &mut list)?;
    }
    Ok(list)
}

fn refusal(alloc: Global, found: Found) -> Result<Fault, AllocError>
    ensures { IfOk result (λ fault. fault ≡ spec.fault_of found) }
{
    fault(alloc, found.kind, Some(found.place), found.name.bytes())
}

/// The modules of a library, before their tables are made.
#[derive(Drop)]
pub(crate) struct Begun {
    pub(crate) naming: Naming,
    pub(crate) modules: Items<ModuleForm>,
    pub(crate) libraries: Vec<NameList<usize>>,
}

/// The modules of a library by number, with what their names mean, and what is told of the use
/// clauses of the library.
fn begin(
    alloc: Global,
    names: NameSet,
    form: &Form,
    forms: &[Form],
    exports: &[Exports],
) -> Result<(Begun, Items<Found>), AllocError>
    requires { names ≡ list_map form_name forms.now }
    ensures { IfOk result (λ begun. (g : Given) → g.modules ≡ forms.now → g.used ≡ exports.now
        → IsBegun g form.now begun.0 begun.1) }
{
    let outside = modules_outside(alloc, forms.len(), exports)?;
    let used = Used {
        exports,
        libraries: &outside.libraries,
        forms: &outside.forms_by_number,
    };
    let reading = read_uses(alloc, used, form)?;
    let Outside {
        mut forms_by_number,
        libraries,
        nothing,
    } = outside;
    let Reading {
        imported,
        found,
        ..
    } = reading;
    let naming = Naming {
        own: names,
        imported,
        nothing,
    };
    put_modules(alloc, &naming, forms, &mut forms_by_number)?;
    let begun = Begun {
        naming,
        modules: Items::from_vec(forms_by_number),
        libraries,
    };
    Ok((begun, found))
}

/// The table of modules that have no fault.
fn make_table(
    alloc: Global,
    begun: Begun,
    tables: Vec<Option<ModuleTables>>,
    form: &Form,
    forms: &[Form],
    exports: &[Exports],
) -> Result<ModuleTable, AllocError>
    requires made { AreMade begun.modules tables.items }
    requires clear { all_clear tables.items ≡ true }
    requires ready { spec.AreReady begun.naming.own begun.naming.imported begun.naming.nothing
        tables.items }
    requires within { length forms.now ≤ length begun.modules }
    ensures { IfOk result (λ t. (g : Given) → g.modules ≡ forms.now → g.used ≡ exports.now
        → (found : List Found) → IsBegun g form.now begun found → IsTable g form.now t) }
{
    let made = Made {
        modules: begun.modules.as_slice(),
        tables: &tables,
    };
    let promised = promises(alloc, &begun.naming, made, forms)?;
    let used = Used {
        exports,
        libraries: &begun.libraries,
        forms: begun.modules.as_slice(),
    };
    let shown = shown_modules(alloc, used, &begun.naming, form)?;
    let shown = sorted_modules(alloc, &shown)?;
    let table = ModuleTable::of_tables(alloc, begun.modules, forms.len(), tables, promised, shown)?;
    Ok(table)
}

/// Tells the faults that no use clause of the library has.
fn tell_others(
    alloc: Global,
    library: &Name,
    headers: &[Name],
    naming: &Naming,
    made: Made<'_>,
    form: &Form,
    others: &[Form],
    forms: &[Form],
    found: &mut Items<Found>,
) -> Result<(), AllocError>
    requires made { AreMade made.modules.now made.tables.now }
    requires of { AreOfForms naming.now.own naming.now.imported naming.now.nothing
        made.modules.now forms.now }
    ensures adds { OnOk result (Adds found.old found.new (spec.IsOtherFault library.now
        headers.now naming.now.own naming.now.imported made.entry.modules.now form.now others.now
        forms.now)) }
    ensures quiet { OnOk result (found.new ≡ [] → (m : ℕ)
        → m < length forms.now
        → is_made (slice_get made.entry.tables.now m) ≡ true
        → IsSingle made.entry.modules.now m) }
{
    tell_forms(alloc, library, form, others, found)?;
    tell_unknown_exports(alloc, naming, form, found)?;
    tell_headers(alloc, naming, headers, found)?;
    tell_ring(alloc, made, forms, found)?;
    tell_modules(alloc, naming, made, forms, found)
}

/// The table, or the fault that is told, where this form of a library is the first.
fn judge_form(
    alloc: Global,
    library: &Name,
    headers: &[Name],
    form: &Form,
    others: &[Form],
    forms: &[Form],
    names: NameSet,
    exports: &[Exports],
) -> Result<ModuleTable, Refusal>
    requires { names ≡ list_map form_name forms.now }
    ensures { IsJudged (record {
      library = library.now;
      headers = headers.now;
      libraries = form.now ∷ others.now;
      modules = forms.now;
      used = exports.now;
    }) result }
{
    let (begun, mut found) = begin(alloc, names, form, forms, exports)?;
    let modules = begun.modules.as_slice();
    let tables = settle(alloc, modules)?;
    let made = Made {
        modules,
        tables: &tables,
    };
    tell_others(
        alloc,
        library,
        headers,
        &begun.naming,
        made,
        form,
        others,
        forms,
        &mut found,
    )?;
    match first(found) {
        Some(found) => Err(Refusal::Fault(refusal(alloc, found)?)),
        None => {
            let table = make_table(alloc, begun, tables, form, forms, exports)?;
            Ok(table)
        }
    }
}

/// The table, or the fault that is told, of forms by what they are about.
fn judge(
    alloc: Global,
    library: &Name,
    headers: &[Name],
    sorted: Sorted,
    exports: &[Exports],
) -> Result<ModuleTable, Refusal>
    requires { sorted.names ≡ list_map form_name sorted.modules }
    ensures { IsJudged (record {
      library = library.now;
      headers = headers.now;
      libraries = sorted.libraries;
      modules = sorted.modules;
      used = exports.now;
    }) result }
{
    let Sorted {
        libraries,
        modules,
        names,
    } = sorted;
    match libraries.as_slice().split_first() {
        Some((form, others)) => judge_form(
            alloc,
            library,
            headers,
            form,
            others,
            modules.as_slice(),
            names,
            exports,
        ),
        None => Err(Refusal::Fault(missing_library(alloc, library, headers)?)),
    }
}

/// The table of a library's modules, from the fragments of its files that define them, one file
/// after the other (DRM 4, "Modules" and "Libraries"). `library` is the name that its LID file
/// gives, `headers` are the modules that its files name, in their order, and `used` is what the
/// libraries export that were compiled before it, in load order.
///
/// A refusal is the first fault: `Syntax` at the first form that is none of a library or a module;
/// else the earliest by file, byte and number of the kind, then by the name (own), of these.
/// `UnknownLibrary`: the form of the library is missing, doubled or named otherwise, or a used
/// library is not given. `UnknownModule`: a used, exported or header module does not exist.
/// `NameClash`: a name has two owners by imports. `NotExported`: a use clause names what is not
/// exported to it. `Cycle`: modules use each other in a ring. Or it says that memory did not
/// suffice. These determine the answer (`graph_laws`).
pub fn graph(
    alloc: Global,
    library: &Name,
    headers: &Vec<Name>,
    forms: &Vec<Fragment>,
    used: &Vec<Exports>,
) -> Result<ModuleTable, Refusal>
    ensures { IsAnswer library.now headers.now.items (forms_of (seen_fragments forms.now.items))
        used.now.items result }
{
    let forms = read_forms(alloc, forms.as_slice())?;
    let sorted = sort_forms(alloc, forms)?;
    judge(alloc, library, headers.as_slice(), sorted, used.as_slice())
}
