//! The central law for whole programs.

ghost use Rattle.dy_lowering_law.specs.Behaving.{ProgramsBehave};
ghost use Rattle.dy_lowering_whole.specs.Unexited.{NoTermExits};
ghost use Rattle.dy_lowering_whole.specs.Whole.{ReadyTermsFollow, ReadyCallsStand};
ghost use Rattle.dy_lowering_whole.specs.Whole.{AllTermsFollow, LoweredTermsFollow};
ghost use Rattle.dy_lowering_whole.specs.Whole.{LoweredCallsStand, LoweredProgramsBehave};
ghost use Rattle.dy_lowering_whole.specs.Whole.{BuiltInAreLowered};

/// What holds of programs that are lowered.
pub fn whole_laws()
    // Each term in scope of the kinds that are lowered yet follows where calls stand.
    ensures lowered_terms { LoweredTermsFollow }
    // In programs of these calls stand with every number of units.
    ensures lowered_calls { LoweredCallsStand }
    // With every fuel their code behaves as they do.
    ensures lowered_programs { LoweredProgramsBehave }
    // The libraries that are built in are such.
    ensures built_in { BuiltInAreLowered }
    // No term leaves a block.
    ensures exits { NoTermExits }
    // So each term follows that counts as lowered.
    ensures terms { ReadyTermsFollow }
    ensures calls { ReadyCallsStand }
    ensures all { AllTermsFollow }
    // With every fuel the code of a program of such terms behaves as the program.
    ensures programs { ProgramsBehave }
{}
