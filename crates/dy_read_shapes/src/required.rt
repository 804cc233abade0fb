//! The required parameters of methods.

ghost use Rattle.std.specs.Prelude.{◌≡◌, IfOk, option_map};
ghost use Rattle.dy_tree.specs.Fragments.{seen_fragment, seen_fragments};
ghost use Rattle.dy_rules.specs.Fragments.{items_of};
ghost use Rattle.dy_rules.specs.Signatures as signatures;
ghost use Rattle.dy_rules.specs.Types.{required_variable};
ghost use Rattle.dy_rules.specs.TypeReading as reading;
ghost use Rattle.dy_read_shapes.specs.ReadRequired.{read_required, capped_required, required_read};
ghost use Rattle.dy_read_shapes.specs.ReadRequired.{RequiredDepth};
ghost use Rattle.dy_read_types.specs.VariableFronts.{read_variable};

use dy_read_parts::depth::deepen;
use dy_read_parts::mark::is_identity_at;
use dy_read_parts::names::name_at;
use dy_read_types::single::single_in;
use dy_read_types::variables::variable_items;
use dy_tree::{Fragment, Required, Variable};
use std::alloc::{AllocError, Global};

/// What stands on both sides of a `==` behind the first fragment.
#[derive(Clone, Copy, Debug)]
struct Identity<'a> {
    parameter: &'a Fragment,
    value: &'a [Fragment],
}

/// What stands on both sides of a `==` behind the first fragment.
#[tactic(auto, using(dy_rules::proofs::Lists::fragments_back))]
fn identity_in(fragments: &[Fragment]) -> Option<Identity<'_>>
    ensures { signatures.required_items (items_of (seen_fragments fragments.now))
        ≡ required_read (items_of (seen_fragments fragments.now)) result }
{
    match fragments.split_first() {
        Some((parameter, behind)) => match behind.split_first() {
            Some((sign, value)) => {
                if is_identity_at(sign) {
                    Some(Identity { parameter, value })
                } else {
                    None
                }
            }
            None => None,
        },
        None => None,
    }
}

/// A parameter that is compared with a value.
#[tactic(auto, using(crate::proofs::RequiredParts::single_named_at))]
fn single_at(
    parameter: &Fragment,
    value: &[Fragment],
    depth: &mut usize,
) -> Result<Option<Required>, AllocError>
    ensures found { IfOk result
        (λ found. option_map read_required found
        ≡ option_map capped_required
        (signatures.single_at (seen_fragment parameter.now)
        (reading.single_in (seen_fragments value.now)))) }
    ensures depth { IfOk result (λ found. RequiredDepth depth.old depth.new found) }
{
    match name_at(parameter) {
        Some(name) => match single_in(value)? {
            Some(single) => {
                deepen(depth, 1);
                Ok(Some(Required::Single {
                    name: name.copy()?,
                    single,
                }))
            }
            None => Ok(None),
        },
        None => Ok(None),
    }
}

/// A parameter that takes any value of its type.
fn any_value(variable: Option<Variable>) -> Option<Required>
    ensures { option_map read_required result
        ≡ option_map required_variable (option_map read_variable variable) }
{
    match variable {
        Some(variable) => Some(Required::Variable(variable)),
        None => None,
    }
}

/// The required parameter that fragments stand for.
pub fn required_items(
    alloc: Global,
    fragments: &[Fragment],
    depth: &mut usize,
) -> Result<Option<Required>, AllocError>
    ensures found { IfOk result
        (λ found. option_map read_required found
        ≡ option_map capped_required
        (signatures.required_items (items_of (seen_fragments fragments.now)))) }
    ensures depth { IfOk result (λ found. RequiredDepth depth.old depth.new found) }
{
    match identity_in(fragments) {
        Some(identity) => single_at(identity.parameter, identity.value, depth),
        None => Ok(any_value(variable_items(alloc, fragments, depth)?)),
    }
}
