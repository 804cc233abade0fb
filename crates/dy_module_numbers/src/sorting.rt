//! The forms of a library by what they are about.

ghost use Rattle.std.specs.Prelude.{◌≡◌, IfOk, OnOk, map};
ghost use Rattle.dy_module_numbers.specs.Sorting as spec;

use dy_base::Items;
use dy_module_forms::{Form, Kind};
use dy_modules::NameSet;
use std::alloc::{AllocError, Global};

/// Forms by what they are about.
#[derive(Drop)]
pub struct Sorted {
    /// Those of libraries.
    pub libraries: Items<Form>,
    /// Those of modules; of those of one name, the first.
    pub modules: Items<Form>,
    /// The names of the modules.
    pub names: NameSet,
}

fn is_of_library(kind: Kind) -> bool
    ensures { result ≡ spec.is_of_library kind }
{
    match kind {
        Kind::Library => true,
        Kind::Module => false,
    }
}

fn add_form(alloc: Global, form: Form, sorted: &mut Sorted) -> Result<(), AllocError>
    ensures { OnOk result (sorted.new ≡ spec.with_form sorted.old form) }
{
    if is_of_library(form.kind) {
        sorted.libraries.push(form)?;
        return Ok(());
    }
    if sorted.names.has(form.name.bytes()) {
        return Ok(());
    }
    sorted.names.add(alloc, form.name.bytes())?;
    sorted.modules.push(form)?;
    Ok(())
}

fn sorted_from(alloc: Global, forms: Items<Form>) -> Result<Sorted, AllocError>
    ensures { IfOk result (λ sorted. sorted ≡ spec.after_forms spec.nothing_sorted forms) }
{
    let mut sorted = Sorted {
        libraries: Items::new(alloc),
        modules: Items::new(alloc),
        names: NameSet::new(alloc),
    };
    let mut rest = forms.into_vec();
    rest.reverse();
    while let Some(form) = rest.pop() {
        add_form(alloc, form, &mut sorted)?;
    }
    Ok(sorted)
}

/// Forms by what they are about. A module is that of its first form.
#[tactic(auto, using(crate::proofs::Sorts::libraries_are, crate::proofs::Sorts::modules_are, crate::proofs::Sorts::names_are))]
pub fn sort_forms(alloc: Global, forms: Items<Form>) -> Result<Sorted, AllocError>
    ensures libraries { IfOk result (λ sorted. sorted.libraries ≡ spec.libraries forms) }
    ensures modules { IfOk result (λ sorted. sorted.modules ≡ spec.modules forms) }
    ensures names { IfOk result (λ sorted. sorted.names ≡ map spec.form_name (spec.modules forms)) }
{
    let sorted = sorted_from(alloc, forms)?;
    Ok(sorted)
}
