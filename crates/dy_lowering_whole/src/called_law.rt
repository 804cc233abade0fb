//! The law of generic functions that terms call.

ghost use Rattle.dy_lowering_whole.specs.called.Called.{TermsCallKnown, LambdasCallKnown};

/// What is read of a draft calls generic functions that are there, where each name of one is of one
/// that is there.
pub fn called_term_laws()
    // A term.
    ensures terms { TermsCallKnown }
    // A lambda.
    ensures lambdas { LambdasCallKnown }
{}
