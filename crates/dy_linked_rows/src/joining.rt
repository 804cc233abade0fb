//! The law of programs of linked rows.

ghost use Rattle.dy_linked_rows.specs.Programs.{ProgramsAreJoined};

/// The code of a program of linked libraries is that of their units, joined.
pub fn linked_programs_laws()
    ensures joined { ProgramsAreJoined }
{}
