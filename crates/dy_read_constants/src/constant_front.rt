//! A constant at the front of fragments.

ghost use Rattle.std.specs.Prelude.{◌≡◌, max, suc, length, option_map, option_and_then};
ghost use Rattle.dy_tree.specs.Fragments.{seen_fragments};
ghost use Rattle.dy_rules.specs.ConstantTrees.{literal_item};
ghost use Rattle.dy_rules_depth.specs.Capping.{filled_literal};
ghost use Rattle.dy_read_constants.specs.ConstantCaps.{read_constant};
ghost use Rattle.dy_read_constants.specs.ConstantFronts.{read_front, whole, RestWithin};
ghost use Rattle.dy_read_constants.specs.ConstantFronts.{RestShorter};
ghost use Rattle.dy_read_constants.specs.ConstantShapes as spec;
ghost use Rattle.dy_read_parts.specs.Nesting.{nesting};

use dy_read_parts::depth::deepen;
use dy_tree::{ConstantForm, Fragment, LiteralForm};

/// A constant at the front of fragments, and what stands behind it.
#[derive(Drop)]
pub struct ConstantFront<'a> {
    pub value: ConstantForm,
    pub rest: &'a [Fragment],
}

/// A literal as a constant.
pub fn literal(form: LiteralForm, depth: &mut usize) -> ConstantForm
    requires { filled_literal form ≡ literal_item form }
    ensures made { read_constant result ≡ literal_item form }
    ensures depth { depth.new ≡ max depth.old 1 }
{
    deepen(depth, 1);
    ConstantForm::Literal(form)
}

/// A constant that was read, with what stands behind it.
pub fn in_front<'a>(value: Option<ConstantForm>, rest: &'a [Fragment]) -> Option<ConstantFront<'a>>
    ensures front { option_map read_front result
        ≡ option_map (spec.in_front (seen_fragments rest.now)) (option_map read_constant value) }
    ensures nested { RestWithin (nesting (seen_fragments rest.now)) result }
    ensures shorter { RestShorter (suc (length rest.now)) result }
{
    match value {
        Some(value) => Some(ConstantFront { value, rest }),
        None => None,
    }
}

/// A constant that nothing stands behind.
pub fn whole(front: Option<ConstantFront>) -> Option<ConstantForm>
    ensures { option_map read_constant result
        ≡ option_and_then whole (option_map read_front front.entry) }
{
    match front {
        Some(front) => {
            if front.rest.is_empty() {
                Some(front.value)
            } else {
                None
            }
        }
        None => None,
    }
}
