//! The laws of the programs of libraries that are accepted.

ghost use Rattle.dy_accepted_runs.specs.Accepted.{AcceptedAreNamed, AcceptedNamesAreApart};
ghost use Rattle.dy_accepted_runs.specs.Accepted.{AcceptedAreApart, AcceptedAreLowered};
ghost use Rattle.dy_accepted_runs.specs.Accepted.{AcceptedBehave, AcceptedMayRun, AcceptedRun};
ghost use Rattle.dy_accepted_runs.specs.Accepted.{AcceptedEnd};

/// What holds of libraries that files were judged to be, each behind those in front of it, and of
/// the program of each of them.
pub fn accepted_run_laws()
    // Each is the library of forms whose names its modules give.
    ensures named { AcceptedAreNamed }
    // No two have one name.
    ensures names { AcceptedNamesAreApart }
    // In a program no two libraries that the code of one mentions come together.
    ensures apart { AcceptedAreApart }
    // The program is in scope, and of kinds that are lowered.
    ensures lowered { AcceptedAreLowered }
    // So with every fuel the machine on its code does what it means.
    ensures behave { AcceptedBehave }
    // The code of the program may run.
    ensures valid { AcceptedMayRun }
    // No run of it is ever stuck.
    ensures runs { AcceptedRun }
    // Each run ends, within as many steps as its forms and its units say.
    ensures ends { AcceptedEnd }
{}
