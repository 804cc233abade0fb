//! The law of plain drafts.

ghost use Rattle.dy_names.specs.Outside.{Outside};
ghost use Rattle.dy_lowered_forms.specs.drafts.Lowered.{PlainTermsAreLowered, PlainLambdasAreLowered};
ghost use Rattle.dy_lowered_forms.specs.drafts.Lowered.{PlainFormsAreLowered};

/// What is read of drafts of which every part is lowered is lowered, whatever is outside.
pub fn lowered_draft_laws()
    // A term that runs by itself.
    ensures terms { (out : Outside) → PlainTermsAreLowered out }
    // A lambda around which there are no locals.
    ensures lambdas { (out : Outside) → PlainLambdasAreLowered out }
    // The rows of forms.
    ensures rows { (out : Outside) → PlainFormsAreLowered out }
{}
