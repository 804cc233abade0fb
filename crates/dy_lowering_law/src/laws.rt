//! The central law.

ghost use Rattle.dy_lowering_law.specs.Kinds.{ReadsFollow, ChoicesFollow, BranchesFollow};
ghost use Rattle.dy_lowering_law.specs.Kinds.{AssignmentsFollow, LiteralsFollow, BothFollow};
ghost use Rattle.dy_lowering_law.specs.Kinds.{ArgumentsFollow, ValuesTaken, EitherFollow};
ghost use Rattle.dy_lowering_law.specs.Kinds.{BodiesFollow, LetsFollow, AllNamesFollow};
ghost use Rattle.dy_lowering_law.specs.Kinds.{OperationsTaken};

/// What holds of lowered code.
pub fn lowering_laws()
    // The value of a local.
    ensures reads { ReadsFollow }
    // A choice, whatever its parts.
    ensures choices { ChoicesFollow }
    // A conditional of several branches.
    ensures branches { BranchesFollow }
    // Names of libraries, and assignments to them.
    ensures names { AllNamesFollow }
    // A literal.
    ensures literals { LiteralsFollow }
    // `&`.
    ensures both { BothFollow }
    // `|`.
    ensures either { EitherFollow }
    // A body.
    ensures bodies { BodiesFollow }
    // A `let` of one local.
    ensures lets { LetsFollow }
    // An assignment to a local.
    ensures assignments { AssignmentsFollow }
    // Arguments, and an instruction that takes them.
    ensures arguments { ArgumentsFollow }
    // One that gives them as values.
    ensures values { ValuesTaken }
    // A built-in operation that prints nothing.
    ensures operations { OperationsTaken }
{}
