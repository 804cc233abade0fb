//! The law of forms of which every construct runs.

ghost use Rattle.dy_lowered_forms.specs.Forms.{RunningFormsAreLowered};

/// The draft of a form of which every construct runs is of kinds that are lowered.
pub fn lowered_form_laws()
    ensures { RunningFormsAreLowered }
{}
