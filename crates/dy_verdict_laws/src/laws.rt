//! The laws of the verdicts on libraries.

ghost use Rattle.dy_verdict_laws.specs.Accepted.{VerdictsAreOne, AcceptedAreLowered};
ghost use Rattle.dy_verdict_laws.specs.Accepted.{AcceptedAreViewed, AcceptedAreLower};

/// What holds of the verdicts on the files of libraries.
pub fn verdict_laws()
    // No files have two verdicts.
    ensures one { VerdictsAreOne }
    // The rows of a library that is accepted are in scope, and of kinds that are lowered.
    ensures lowered { AcceptedAreLowered }
    // It may be put behind those that were compiled: it uses some of them, by its view of them.
    ensures viewed { AcceptedAreViewed }
    // The names that it exports are in lower case.
    ensures lower { AcceptedAreLower }
{}
