//! The law of what type constants stand for.

ghost use Rattle.dy_type_names.specs.Standings.{AreOne};

/// The type constants of a library stand for one thing each, and one list of faults is told.
pub fn standing_laws()
    ensures { AreOne }
{}
