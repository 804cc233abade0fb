//! The definitions of a library's forms.

ghost use Rattle.std.specs.Prelude.{◌≡◌, ◌∷◌, [], map, IfOk, OnOk};
ghost use Rattle.dy_term.specs.Types.{seen_typed};
ghost use Rattle.dy_term.specs.Rows.{seen_slot, seen_draft};
ghost use Rattle.dy_library_rows.specs.Names.{what_of};
ghost use Rattle.dy_library_rows.specs.Libraries.{seen_form};
ghost use Rattle.dy_definitions.specs.declared.definitions.Role.TheVariants.{Makes};
ghost use Rattle.dy_module_names.specs.Definitions.{slots_names, defined_names};
ghost use Rattle.dy_module_names.specs.Passes.{with_names, with_forms};
ghost use Rattle.dy_module_names.specs.Given.{modules_in};

use crate::modules::{is_open, owner_of};
use dy_base::{Items, Place, What};
use dy_definitions::{Definition, Role};
use dy_module_tables::OpenTable;
use dy_term::{Draft, DraftSlot, DraftTop, DraftType, DraftVariable};
use dy_tree::Token;
use std::alloc::{AllocError, Global};

/// Adds a definition of a name in a form at this place.
fn add(
    alloc: Global,
    modules: &OpenTable,
    place: Place,
    name: &Token,
    role: Role,
    list: &mut Items<Definition>,
) -> Result<(), AllocError>
    ensures { OnOk result (list.new
        ≡ with_names (modules_in modules.now) place ((name.now, role) ∷ []) list.old) }
{
    let owner = owner_of(alloc, modules, name)?;
    let is_open = is_open(alloc, modules, name)?;
    let name = name.copy()?;
    list.push(Definition {
        place,
        name,
        role,
        owner,
        is_open,
    })?;
    Ok(())
}

fn add_slots(
    alloc: Global,
    modules: &OpenTable,
    place: Place,
    slots: &Vec<DraftSlot>,
    list: &mut Items<Definition>,
) -> Result<(), AllocError>
    ensures { OnOk result (list.new ≡ with_names (modules_in modules.now) place
        (slots_names (map seen_slot slots.now.items)) list.old) }
{
    for slot in slots {
        add(alloc, modules, place, &slot.getter, Role::Adds, list)?;
        if let Some(setter) = &slot.setter {
            add(alloc, modules, place, setter, Role::Adds, list)?;
        }
    }
    Ok(())
}

fn add_variables(
    alloc: Global,
    modules: &OpenTable,
    place: Place,
    is_constant: bool,
    variables: &Vec<(Token, DraftType)>,
    list: &mut Items<Definition>,
) -> Result<(), AllocError>
    ensures { OnOk result (list.new ≡ with_names (modules_in modules.now) place
        (map (λ v. (v.0, Makes (what_of is_constant))) (map seen_typed variables.now.items))
        list.old) }
{
    let what = if is_constant {
        What::Constant
    } else {
        What::Variable
    };
    for (name, _declared) in variables {
        add(alloc, modules, place, name, Role::Makes(what), list)?;
    }
    Ok(())
}

fn add_form(
    alloc: Global,
    modules: &OpenTable,
    place: Place,
    draft: &Draft,
    list: &mut Items<Definition>,
) -> Result<(), AllocError>
    ensures { OnOk result (list.new
        ≡ with_names (modules_in modules.now) place
        (defined_names (seen_draft draft.now)) list.old) }
{
    match draft {
        Draft::Class(class) => {
            let role = Role::Makes(What::Class);
            add(alloc, modules, place, &class.name, role, list)?;
            add_slots(alloc, modules, place, &class.slots, list)
        }
        Draft::Generic(generic) => {
            let role = Role::Makes(What::Generic);
            add(alloc, modules, place, &generic.name, role, list)
        }
        Draft::Method(method) => { add(alloc, modules, place, &method.generic, Role::Adds, list) }
        Draft::Domain(_) => Ok(()),
        Draft::Variable(DraftVariable::Function(_, name, _)) => {
            add(
                alloc,
                modules,
                place,
                name,
                Role::Makes(What::Function),
                list,
            )
        }
        Draft::Variable(DraftVariable::Type(name, _, _)) => {
            add(
                alloc,
                modules,
                place,
                name,
                Role::Makes(What::Constant),
                list,
            )
        }
        Draft::Top(
            DraftTop::Init {
                is_constant,
                variables,
                term: _,
            },
        ) => add_variables(alloc, modules, place, *is_constant, variables, list),
        Draft::Top(DraftTop::Run(_)) => Ok(()),
    }
}

/// The definitions of these forms, in the order of the text.
pub fn definitions(
    alloc: Global,
    modules: &OpenTable,
    forms: &[(Place, Draft)],
) -> Result<Items<Definition>, AllocError>
    ensures { IfOk result (λ list. list
        ≡ with_forms (modules_in modules.now) (map seen_form forms.now) []) }
{
    let mut list = Items::new(alloc);
    for (place, draft) in forms {
        add_form(alloc, modules, *place, draft, &mut list)?;
    }
    Ok(list)
}
