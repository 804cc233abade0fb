//! What an `exception` clause catches.

ghost use Rattle.std.specs.Prelude.{◌≡◌, IfOk, None, option_map};
ghost use Rattle.dy_tree.specs.Fragments.{seen_fragment, seen_fragments};
ghost use Rattle.dy_rules.specs.Blocks as spec;
ghost use Rattle.dy_rules.specs.Fragments.{items_of};
ghost use Rattle.dy_rules.specs.TypeReading.{type_items};
ghost use Rattle.dy_rules_depth.specs.Capping.{capping};
ghost use Rattle.dy_rules_depth.specs.ReaderChanges.{changed_caught};
ghost use Rattle.dy_read_statements.specs.CaughtShapes.{caught_read, read_caught, variable_of};
ghost use Rattle.dy_read_statements.specs.CaughtShapes.{CaughtDepth, IsCaughtWithin};
ghost use Rattle.dy_read_parts.specs.Nesting.{nesting};
ghost use Rattle.dy_read_types.specs.TypeCaps.{read_type};

use dy_read_parts::mark::is_colons;
use dy_read_parts::names::name_at;
use dy_read_types::types::type_items;
use dy_tree::{Fragment, Token, TypeForm};
use std::alloc::{AllocError, Global};

/// A condition, and the variable that is bound to it.
#[derive(Clone, Copy, Debug)]
pub struct CaughtShape<'a> {
    pub variable: Option<&'a Token>,
    pub condition: &'a [Fragment],
}

/// A condition that was read.
#[derive(Drop)]
pub struct Caught {
    pub variable: Option<Token>,
    pub condition: TypeForm,
}

/// A condition without a variable.
fn plain_shape(condition: &[Fragment]) -> Option<CaughtShape<'_>>
    ensures found { option_map (spec.caught_of None)
        (type_items (items_of (seen_fragments condition.now))) ≡ caught_read result }
    ensures nested { IsCaughtWithin (nesting (seen_fragments condition.now)) result }
{
    Some(CaughtShape {
        variable: None,
        condition,
    })
}

/// A condition behind a variable and its `::`.
#[tactic(auto, using(crate::proofs::Blocks::caught_name))]
fn named_shape<'a>(first: &'a Fragment, condition: &'a [Fragment]) -> Option<CaughtShape<'a>>
    ensures found { spec.caught_with (seen_fragment first.now)
        (type_items (items_of (seen_fragments condition.now))) ≡ caught_read result }
    ensures nested { IsCaughtWithin (nesting (seen_fragments condition.now)) result }
{
    match name_at(first) {
        Some(variable) => Some(CaughtShape {
            variable: Some(variable),
            condition,
        }),
        None => None,
    }
}

/// How the condition of a clause is divided.
pub fn caught_shape(fragments: &[Fragment]) -> Option<CaughtShape<'_>>
    ensures found { spec.caught_items (items_of (seen_fragments fragments.now))
        ≡ caught_read result }
    ensures nested { IsCaughtWithin (nesting (seen_fragments fragments.now)) result }
{
    match fragments.split_first() {
        None => None,
        Some((first, behind)) => match behind.split_first() {
            None => plain_shape(fragments),
            Some((second, rest)) => {
                if is_colons(second) {
                    named_shape(first, rest)
                } else {
                    plain_shape(fragments)
                }
            }
        },
    }
}

fn variable_copy(variable: Option<&Token>) -> Result<Option<Token>, AllocError>
    ensures { IfOk result (λ copy. copy ≡ variable_of variable.entry) }
{
    match variable {
        Some(token) => Ok(Some(token.copy()?)),
        None => Ok(None),
    }
}

fn caught_with(variable: Option<Token>, condition: Option<TypeForm>) -> Option<Caught>
    ensures { option_map read_caught result
        ≡ option_map (spec.caught_of variable) (option_map read_type condition) }
{
    match condition {
        Some(condition) => Some(Caught {
            variable,
            condition,
        }),
        None => None,
    }
}

/// What a clause catches.
pub fn caught_items(
    alloc: Global,
    fragments: &[Fragment],
    depth: &mut usize,
) -> Result<Option<Caught>, AllocError>
    ensures found { IfOk result
        (λ found. option_map read_caught found
        ≡ option_map (changed_caught capping)
        (spec.caught_items (items_of (seen_fragments fragments.now)))) }
    ensures depth { IfOk result (λ found. CaughtDepth depth.old depth.new found) }
{
    match caught_shape(fragments) {
        Some(shape) => {
            let variable = variable_copy(shape.variable)?;
            let condition = type_items(alloc, shape.condition, depth)?;
            Ok(caught_with(variable, condition))
        }
        None => Ok(None),
    }
}
