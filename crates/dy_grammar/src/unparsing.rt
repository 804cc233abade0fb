//! Forms are written.

ghost use Rattle.std.specs.Prelude.{◌≡◌, ◌≤◌, List, IfOk};
ghost use Rattle.dy_tree.specs.Fragments.{SeenFragment, seen_fragments};
ghost use Rattle.dy_rules.specs.Depth.{depth_limit};
ghost use Rattle.dy_rules.specs.FormDepth.{form_depth};
ghost use Rattle.dy_rules.specs.Forms.{IsForm};
ghost use Rattle.dy_rules.specs.FormWriting.{written_form};
ghost use Rattle.dy_rules.specs.Parsing.{accepted, parsed};
ghost use Rattle.dy_rules.specs.SeenForms.{seen_form};

use dy_tree::{Form, Fragment};
use dy_writer::push_form;
use std::alloc::{AllocError, Global};

/// The canonical fragments of a form (DRM, appendix A).
///
/// Round brackets stand round every operand that is no leaf, round a symbol or a negative literal
/// that is an operand, round an integer under a minus, and round a name, or a member with a name,
/// that splits some statement. A semicolon stands behind the results of a method, and none at the
/// end of a body. Tokens of the tree are given as they are; a word, mark or bracket that the tree
/// does not hold is made: it has place 0 of file 0, origin 0 and module 0. The only error is that
/// memory did not suffice.
pub fn unparse(alloc: Global, form: &Form) -> Result<Vec<Fragment>, AllocError>
    ensures writes { IfOk result
        (λ fragments. seen_fragments fragments.items ≡ written_form (seen_form form.now)) }
    // What stands for some fragments is what the fragments that are given stand for.
    ensures stands { (fragments : List SeenFragment) → IsForm (seen_form form.now) fragments
        → IfOk result (λ written. IsForm (seen_form form.now) (seen_fragments written.items)) }
    // It is told to be this form, where it is within the limit of depth.
    ensures again { (fragments : List SeenFragment) → IsForm (seen_form form.now) fragments
        → form_depth (seen_form form.now) ≤ depth_limit
        → IfOk result (λ written. parsed (seen_fragments written.items)
        ≡ accepted (seen_form form.now)) }
{
    let mut out = Vec::new(alloc);
    push_form(alloc, form, &mut out)?;
    Ok(out)
}
