//! The central law, for `for`.

ghost use Rattle.dy_lowering_law.specs.fors.Loops.{ForsFollow};

/// What holds of lowered code.
pub fn for_laws()
    // `for`, whatever its clauses.
    ensures loops { ForsFollow }
{}
