//! The laws of machines whose rows hold no terms.

ghost use Rattle.dy_bare_machines.specs.Machines.{BuiltInIsAlike, StepsAreAlike, RunsAreAlike};

/// What holds of a program and of its rows without terms.
pub fn bare_machine_laws()
    // What is built in is the same for the rows without terms.
    ensures built_in { BuiltInIsAlike }
    // The code of the program does the same with these rows, step by step.
    ensures steps { StepsAreAlike }
    // So it runs to the same ends.
    ensures runs { RunsAreAlike }
{}
