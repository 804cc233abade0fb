//! The modules of used libraries, by their numbers.

ghost use Rattle.std.specs.Prelude.{◌≡◌, ◌+◌, ◌++◌, [], length, map, replicate, IfOk, OnOk};
ghost use Rattle.dy_module_numbers.specs.Numbers as spec;
ghost use Rattle.dy_module_numbers.specs.Numbers.{given_form, outside_form, numbered_after};
ghost use Rattle.dy_module_numbers.specs.Numbers.{library_numbers};

use dy_base::{BindingId, Exports, Items, Name, NameList};
use dy_modules::{ModuleForm, NameSet, Owner};
use std::alloc::{AllocError, Global};

/// The modules of a library: those of its own, which have no form yet, and those of used libraries.
#[derive(Drop)]
pub struct Outside {
    /// By number: the library's own, those that templates of macros see, and those that used
    /// libraries export.
    pub forms_by_number: Vec<ModuleForm>,
    /// For each used library the modules that it exports, by name, with their numbers.
    pub libraries: Vec<NameList<usize>>,
    /// The number of the module that exports nothing.
    pub nothing: usize,
}

/// A module that only exports names with owners.
pub fn given_form(alloc: Global, given: NameList<Owner>) -> ModuleForm
    ensures { result ≡ given_form given }
{
    ModuleForm {
        given,
        listed: NameSet::new(alloc),
        uses: Items::new(alloc),
    }
}

fn outside_form(alloc: Global, rows: &[(Name, BindingId)]) -> Result<ModuleForm, AllocError>
    ensures { IfOk result (λ form. form ≡ given_form (spec.with_outside [] rows.now)) }
{
    let mut given = NameList::new(alloc);
    for (name, id) in rows {
        given.set(alloc, name.bytes(), Owner::Outside(*id))?;
    }
    Ok(given_form(alloc, given))
}

/// Adds modules behind others, and gives their numbers.
fn add_modules(
    alloc: Global,
    rows: &[(Name, Items<(Name, BindingId)>)],
    forms: &mut Vec<ModuleForm>,
) -> Result<NameList<usize>, AllocError>
    ensures forms { OnOk result (forms.new.items ≡ forms.old.items ++ map outside_form rows.now) }
    ensures numbers { IfOk result
        (λ numbers. numbers ≡ numbered_after [] (length forms.old.items) rows.now) }
{
    let mut numbers = NameList::new(alloc);
    for (name, names) in rows {
        let number = forms.len();
        forms.push(outside_form(alloc, names.as_slice())?)?;
        numbers.set(alloc, name.bytes(), number)?;
    }
    Ok(numbers)
}

fn add_seen(alloc: Global, used: &[Exports], forms: &mut Vec<ModuleForm>) -> Result<(), AllocError>
    ensures { OnOk result (forms.new.items
        ≡ spec.after_seen forms.old.items used.now) }
{
    for library in used {
        add_modules(alloc, library.seen.as_slice(), forms)?;
    }
    Ok(())
}

fn add_exported(
    alloc: Global,
    used: &[Exports],
    forms: &mut Vec<ModuleForm>,
) -> Result<Vec<NameList<usize>>, AllocError>
    ensures forms { OnOk result
        (forms.new.items ≡ spec.after_exported forms.old.items used.now) }
    ensures libraries { IfOk result
        (λ list. list.items ≡ library_numbers (length forms.old.items) used.now) }
{
    let mut libraries = Vec::new(alloc);
    for library in used {
        libraries.push(add_modules(alloc, library.modules.as_slice(), forms)?)?;
    }
    Ok(libraries)
}

fn empty_forms(alloc: Global, count: usize) -> Result<Vec<ModuleForm>, AllocError>
    ensures { IfOk result (λ forms. forms.items ≡ replicate count (given_form [])) }
{
    let mut forms = Vec::new(alloc);
    for _number in 0..count {
        forms.push(given_form(alloc, NameList::new(alloc)))?;
    }
    Ok(forms)
}

/// The modules of used libraries behind as many empty ones as the library has of its own, and one
/// more that exports nothing.
pub fn modules_outside(alloc: Global, own: usize, used: &[Exports]) -> Result<Outside, AllocError>
    ensures { IfOk result (λ outside.
        spec.IsOutside own used.now outside.forms_by_number.items outside.libraries.items
        outside.nothing) }
{
    let mut forms = empty_forms(alloc, own)?;
    add_seen(alloc, used, &mut forms)?;
    let libraries = add_exported(alloc, used, &mut forms)?;
    let nothing = forms.len();
    forms.push(given_form(alloc, NameList::new(alloc)))?;
    Ok(Outside {
        forms_by_number: forms,
        libraries,
        nothing,
    })
}
