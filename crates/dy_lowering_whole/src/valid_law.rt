//! The law that lowered code may run.

ghost use Rattle.dy_lowering_whole.specs.valid.Sound.{TermsAreEven, BodiesAreWhole, BodiesAreSound};
ghost use Rattle.dy_lowering_whole.specs.valid.Valid.{ReadyProgramsMayRun, ScopedProgramsMayRun};
ghost use Rattle.dy_lowering_whole.specs.valid.Valid.{ScopedBodiesFit, ScopedBodiesHold};
ghost use Rattle.dy_lowering_whole.specs.valid.Writing.{WrittenHolds};

/// What holds of lowered code.
pub fn lowered_valid_laws()
    // What is fetched from a body is what was placed there.
    ensures written { WrittenHolds }
    // The code of a term leaves operands, lists on the side and rows as they were.
    ensures terms { TermsAreEven }
    // So does each body, until it ends.
    ensures whole { BodiesAreWhole }
    // A body is sound whose instructions name what is there.
    ensures sound { BodiesAreSound }
    // Those of all bodies of a library do in which each term is in scope, closures among them.
    ensures scoped { ScopedBodiesFit }
    // So what is fetched from them is what was placed there.
    ensures holds { ScopedBodiesHold }
    // A program in which each term is in scope may run.
    ensures valid { ScopedProgramsMayRun }
    // So may one of terms that are lowered yet.
    ensures ready { ReadyProgramsMayRun }
{}
