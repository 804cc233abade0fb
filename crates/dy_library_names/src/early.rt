//! Forms that come early (own): until types and calls that choose among methods come, no constant
//! stands for a type, and no generic function has two methods.

ghost use Rattle.std.specs.Prelude.{◌≡◌, map, IfOk, OnOk};
ghost use Rattle.dy_term.specs.Rows.{seen_draft};
ghost use Rattle.dy_library_rows.specs.Libraries.{seen_form};
ghost use Rattle.dy_definitions.specs.Passes.{no_tallies};
ghost use Rattle.dy_definitions.specs.Seen.{tallies_in};
ghost use Rattle.dy_library_names.specs.Early.{stands_for_type, early_at, early_if};
ghost use Rattle.dy_library_names.specs.Early.{early_faults};
ghost use Rattle.dy_library_names.specs.Passes.{counts_method, adds_to_counted, told_types};
ghost use Rattle.dy_library_names.specs.Passes.{told_again, first_of};

use dy_base::{Fault, Items, Kind, Place, Text};
use dy_binding::{Progress, tell_some};
use dy_definitions::{Definition, TallyTable, count, is_generic, is_method, tally_at};
use dy_modules::Owner;
use dy_term::{Draft, DraftVariable};
use std::alloc::{AllocError, Global};

/// Whether a form is a constant that stands for a type.
fn stands_for_type(draft: &Draft) -> bool
    ensures { result ≡ stands_for_type (seen_draft draft.now) }
{
    match draft {
        Draft::Variable(DraftVariable::Type(_, _, _)) => true,
        Draft::Variable(DraftVariable::Function(_, _, _))
        | Draft::Class(_)
        | Draft::Generic(_)
        | Draft::Method(_)
        | Draft::Domain(_)
        | Draft::Top(_) => false,
    }
}

/// The fault of a form that comes early and begins at this place. No memory is taken.
fn early_at(alloc: Global, place: Place) -> Fault
    ensures { result ≡ early_at place }
{
    Fault {
        kind: Kind::Syntax,
        library: Text::from_vec(Vec::new(alloc)),
        place: Some(place),
        shown: Items::new(alloc),
        numbers: Items::new(alloc),
    }
}

fn early_if(alloc: Global, is_early: bool, place: Place) -> Option<Fault>
    ensures { result ≡ early_if is_early place }
{
    if is_early {
        Some(early_at(alloc, place))
    } else {
        None
    }
}

/// Notes the constants that stand for types. No memory is taken.
fn tell_types(alloc: Global, forms: &[(Place, Draft)], progress: &mut Progress)
    ensures { progress.new ≡ told_types (map seen_form forms.now) progress.old }
{
    for (place, draft) in forms {
        let fault = early_if(alloc, stands_for_type(draft), *place);
        tell_some(progress, fault);
    }
}

/// Whether the generic function that an owner's name means has a method: one of another library has.
fn has_method(
    alloc: Global,
    earlier: &TallyTable,
    owner: &Option<Owner>,
) -> Result<bool, AllocError>
    ensures { IfOk result (λ has. has ≡ counts_method (tallies_in earlier.now) owner.now) }
{
    if let Some(Owner::Outside(id)) = owner {
        return Ok(is_generic(id.what));
    }
    Ok(tally_at(alloc, earlier, owner)?.adds)
}

/// Whether a definition adds a method to a generic function that has one.
fn adds_again(
    alloc: Global,
    earlier: &TallyTable,
    definition: &Definition,
) -> Result<bool, AllocError>
    ensures { IfOk result (λ again. again
        ≡ adds_to_counted (tallies_in earlier.now) definition.now) }
{
    let has_method = has_method(alloc, earlier, &definition.owner)?;
    Ok(is_method(definition.role) && has_method)
}

/// Notes the definitions that add methods to generic functions which have one.
fn tell_again(
    alloc: Global,
    definitions: &[Definition],
    progress: &mut Progress,
) -> Result<(), AllocError>
    ensures { OnOk result (progress.new ≡ told_again no_tallies definitions.now progress.old) }
{
    let mut earlier = TallyTable::new(alloc);
    for definition in definitions {
        let again = adds_again(alloc, &earlier, definition)?;
        count(alloc, &mut earlier, definition)?;
        tell_some(progress, early_if(alloc, again, definition.place));
    }
    Ok(())
}

/// The fault of the first form that comes early, where the forms have these definitions.
pub fn first_early(
    alloc: Global,
    definitions: &[Definition],
    forms: &[(Place, Draft)],
) -> Result<Option<Fault>, AllocError>
    ensures { IfOk result (λ first. first
        ≡ first_of (early_faults (map seen_form forms.now) definitions.now)) }
{
    let mut progress = Progress {
        next: 0,
        first: None,
    };
    tell_types(alloc, forms, &mut progress);
    tell_again(alloc, definitions, &mut progress)?;
    Ok(progress.first)
}
