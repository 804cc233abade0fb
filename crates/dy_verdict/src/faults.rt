//! Faults at the begin of a form.

ghost use Rattle.std.specs.Prelude.{◌≡◌};
ghost use Rattle.dy_verdict.specs.Forms.{fault_at};

use dy_base::{Fault, Items, Kind, Place, Text};
use std::alloc::Global;

/// A fault whose subject is written later, and which shows nothing.
pub(crate) fn fault_at(alloc: Global, kind: Kind, place: Place) -> Fault
    ensures { result ≡ fault_at kind place }
{
    Fault {
        kind,
        library: Text::from_vec(Vec::new(alloc)),
        place: Some(place),
        shown: Items::new(alloc),
        numbers: Items::new(alloc),
    }
}
