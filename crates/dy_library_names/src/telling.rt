//! Which of several faults is told.

ghost use Rattle.std.specs.Prelude.{◌≡◌, map, IfOk, OnOk};
ghost use Rattle.dy_library_names.specs.Named.{undefined};
ghost use Rattle.dy_library_names.specs.Passes.{told_all};

use dy_base::{Fault, Items, Kind, Name, Place, Text};
use dy_binding::{Progress, tell_some};
use std::alloc::{AllocError, Global};

/// Notes faults, each behind those so far. No memory is taken.
#[tactic(auto, using(crate::proofs::Tells::told_more))]
pub fn tell_all(progress: &mut Progress, faults: Items<Fault>)
    ensures { progress.new ≡ told_all faults progress.old }
{
    for fault in faults.into_vec() {
        tell_some(progress, Some(fault));
    }
}

/// The fault of a promised name without a definition, by the place of its clause.
fn undefined(alloc: Global, name: &Name, place: Place) -> Result<Fault, AllocError>
    ensures { IfOk result (λ fault. fault ≡ undefined (name.now, place)) }
{
    let mut shown = Items::new(alloc);
    shown.push(Text::of(alloc, name.bytes())?)?;
    Ok(Fault {
        kind: Kind::Unbound,
        library: Text::of(alloc, b"")?,
        place: Some(place),
        shown,
        numbers: Items::new(alloc),
    })
}

/// Notes the faults of these promised names without a definition.
pub fn tell_undefined(
    alloc: Global,
    progress: &mut Progress,
    names: &[(Name, Place)],
) -> Result<(), AllocError>
    ensures { OnOk result (progress.new ≡ told_all (map undefined names.now) progress.old) }
{
    for (name, place) in names {
        let fault = undefined(alloc, name, *place)?;
        tell_some(progress, Some(fault));
    }
    Ok(())
}
