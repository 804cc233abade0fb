//! What holds of reading and writing together.

ghost use Rattle.std.specs.Prelude.{◌≤◌, List, Result};
ghost use Rattle.dy_base.specs.declared.fault.Refusal.{Refusal};
ghost use Rattle.dy_tree.specs.declared.form.Form.{Form};
ghost use Rattle.dy_tree.specs.Fragments.{SeenFragment};
ghost use Rattle.dy_rules.specs.Depth.{depth_limit};
ghost use Rattle.dy_rules.specs.FormDepth.{form_depth};
ghost use Rattle.dy_rules.specs.Forms.{FormTree, IsForm};
ghost use Rattle.dy_rules.specs.FormWriting.{written_form};
ghost use Rattle.dy_reader.specs.Answers.{Accepts, GivesForm};

/// What holds of `parse` behind `unparse`: a form that stands for some fragments, and is within the
/// limit of depth, is what its canonical fragments are parsed as.
pub fn round_trip_laws()
    // A call that parses what the form is written as gives the form, or says that memory did not
    // suffice.
    ensures again { (fragments : List SeenFragment) (form : FormTree) (result : Result Form Refusal)
        → IsForm form fragments → form_depth form ≤ depth_limit → Accepts (written_form form) result
        → GivesForm result form }
{}
