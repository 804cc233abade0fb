//! Forms whose names are taken.

ghost use Rattle.std.specs.Prelude.{◌≡◌, ◌++◌, [], option_map, IfOk, OnOk, Some};
ghost use Rattle.dy_tree.specs.Fragments.{seen_fragments};
ghost use Rattle.dy_module_forms.specs.Forms.{forms_of};
ghost use Rattle.dy_module_numbers.specs.Sorting as sorting;
ghost use Rattle.dy_module_numbers.specs.Options.{with_names};
ghost use Rattle.dy_doubled.specs.Doubled as specs;
ghost use Rattle.dy_doubled.specs.Doubled.{IsAnswer};
ghost use Rattle.dy_doubled.specs.Passes.{with_form_name, told_form, told_all};

use crate::imported::{imported, place_of};
use dy_base::{Exports, Fault, Items, Name, Refusal, Text};
use dy_module_forms::{Form, Kind, read_forms};
use dy_modules::NameSet;
use dy_tree::Fragment;
use std::alloc::{AllocError, Global};

/// What a library defines though the name is taken.
#[derive(Drop)]
pub struct TakenNames {
    /// The library itself, where another one that is given has its name.
    pub library: Option<Fault>,
    /// Its modules, at each form whose name the library imports or an earlier form has.
    pub modules: Items<Fault>,
}

fn is_of_library(kind: Kind) -> bool
    ensures { result ≡ sorting.is_of_library kind }
{
    match kind {
        Kind::Library => true,
        Kind::Module => false,
    }
}

fn redefined_at(alloc: Global, form: &Form) -> Result<Fault, AllocError>
    ensures { IfOk result (λ fault. fault ≡ specs.redefined form.now) }
{
    let mut shown = Items::new(alloc);
    shown.push(Text::of(alloc, form.name.bytes())?)?;
    Ok(Fault {
        kind: dy_base::Kind::Redefined,
        library: Text::from_vec(Vec::new(alloc)),
        place: Some(form.place),
        shown,
        numbers: Items::new(alloc),
    })
}

/// The first form of a library.
fn library_form(forms: &[Form]) -> Option<&Form>
    ensures { option_map (λ form. form.now) result
        ≡ specs.first_form (sorting.libraries forms.now) }
{
    for form in forms {
        if is_of_library(form.kind) {
            return Some(form);
        }
    }
    None
}

fn tell_form(
    alloc: Global,
    form: &Form,
    taken: &mut NameSet,
    faults: &mut Items<Fault>,
) -> Result<(), AllocError>
    ensures taken { OnOk result (taken.new ≡ with_form_name taken.old form.now) }
    ensures faults { OnOk result (faults.new ≡ faults.old ++ told_form taken.old form.now) }
{
    if is_of_library(form.kind) {
        return Ok(());
    }
    if taken.has(form.name.bytes()) {
        faults.push(redefined_at(alloc, form)?)?;
        return Ok(());
    }
    taken.add(alloc, form.name.bytes())
}

/// The forms of modules whose names are taken, by these names or by an earlier form.
fn tell_forms(
    alloc: Global,
    forms: &[Form],
    taken: &mut NameSet,
) -> Result<Items<Fault>, AllocError>
    ensures { IfOk result (λ faults. faults ≡ told_all [] taken.old forms.now) }
{
    let mut faults = Items::new(alloc);
    for form in forms {
        tell_form(alloc, form, taken, &mut faults)?;
    }
    Ok(faults)
}

/// The names of the modules that a form of the library imports, if there is one.
fn imported_by(alloc: Global, used: &[Exports], form: Option<&Form>) -> Result<NameSet, AllocError>
    ensures { IfOk result (λ set. set ≡ with_names []
        (specs.imported_in used.now (option_map (λ form. form.now) form.entry))) }
{
    match form {
        Some(form) => imported(alloc, used, form.clauses.as_slice()),
        None => Ok(NameSet::new(alloc)),
    }
}

/// The fault of the library, where another that is given has its name.
fn library_fault(
    alloc: Global,
    given: &[Exports],
    library: &Name,
    form: Option<&Form>,
) -> Result<Option<Fault>, AllocError>
    ensures { IfOk result (λ fault. fault ≡ specs.library_fault given.now library.now
        (option_map (λ form. form.now) form.entry)) }
{
    let Some(form) = form else {
        return Ok(None);
    };
    match place_of(given, library) {
        Some(_) => Ok(Some(redefined_at(alloc, form)?)),
        None => Ok(None),
    }
}

/// The faults of modules, where this is the form of the library, if there is one.
#[tactic(auto, using(crate::proofs::Telling::all_told))]
fn doubled(
    alloc: Global,
    used: &[Exports],
    form: Option<&Form>,
    forms: &[Form],
) -> Result<Items<Fault>, AllocError>
    ensures { IfOk result (λ faults. faults ≡ specs.doubled_behind
        (specs.imported_in used.now (option_map (λ form. form.now) form.entry)) [] forms.now) }
{
    let mut taken = imported_by(alloc, used, form)?;
    let faults = tell_forms(alloc, forms, &mut taken)?;
    Ok(faults)
}

fn redefined_in(
    alloc: Global,
    library: &Name,
    forms: &[Form],
    used: &[Exports],
    given: &[Exports],
) -> Result<TakenNames, AllocError>
    ensures { IfOk result (λ redefined. redefined
        ≡ specs.redefined_in library.now forms.now used.now given.now) }
{
    let form = library_form(forms);
    let library = library_fault(alloc, given, library, form)?;
    let modules = doubled(alloc, used, form, forms)?;
    Ok(TakenNames { library, modules })
}

/// What the forms of a library define though the name is taken, as faults `Redefined` (DRM 4,
/// "Modules" and "Libraries"; own in which form is told). `library`, `forms` and `used` are those
/// of `graph` of `dy_graph`, which counts the first form of a module, and one of the library in
/// front of an imported one. `given` is what all libraries export that were compiled before it.
///
/// The library itself, at its form, where one of the given ones has its name, whether it is used or
/// not; this comes behind the faults of `graph`. And a module, at its form, where the library
/// imports one of its name from those that are used, or an earlier form has the name; these are
/// faults of names, in the order of the forms. A refusal is `Syntax` at the first form that is none
/// of a library or a module, or says that memory did not suffice.
pub fn redefined(
    alloc: Global,
    library: &Name,
    forms: &Vec<Fragment>,
    used: &Vec<Exports>,
    given: &[Exports],
) -> Result<TakenNames, Refusal>
    ensures { IsAnswer library.now (forms_of (seen_fragments forms.now.items)) used.now.items
        given.now result }
{
    let forms = read_forms(alloc, forms.as_slice())?;
    let redefined = redefined_in(alloc, library, forms.as_slice(), used.as_slice(), given)?;
    Ok(redefined)
}
