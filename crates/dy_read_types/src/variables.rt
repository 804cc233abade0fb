//! The variables that fragments stand for.

ghost use Rattle.std.specs.Prelude.{◌≡◌, IfOk, option_map, option_and_then};
ghost use Rattle.dy_tree.specs.Fragments.{seen_fragments};
ghost use Rattle.dy_rules.specs.TypeReading as reading;
ghost use Rattle.dy_rules.specs.Fragments.{items_of};
ghost use Rattle.dy_read_types.specs.TypeFronts as types;
ghost use Rattle.dy_read_types.specs.VariableFronts.{read_variable, capped_variable, seen_front};
ghost use Rattle.dy_read_types.specs.VariableFronts.{capped_front, FrontDepth, VariableDepth};

use crate::types::{TypeFront, type_front};
use crate::variable_shape::{VariableShape, variable_shape};
use dy_tree::{Fragment, Token, Variable};
use std::alloc::{AllocError, Global};

/// A variable at the front of fragments, and what stands behind it.
#[derive(Drop)]
pub struct VariableFront<'a> {
    pub variable: Variable,
    pub rest: &'a [Fragment],
}

/// A variable without a type.
fn untyped<'a>(name: &Token, rest: &'a [Fragment]) -> Result<VariableFront<'a>, AllocError>
    ensures { IfOk result (λ front. seen_front front
        ≡ reading.untyped_front name.now (items_of (seen_fragments rest.now))) }
{
    Ok(VariableFront {
        variable: Variable {
            name: name.copy()?,
            declared: None,
        },
        rest,
    })
}

/// A variable with a type, and what stands behind it.
fn typed<'a>(
    name: &Token,
    declared: Option<TypeFront<'a>>,
) -> Result<Option<VariableFront<'a>>, AllocError>
    ensures { IfOk result (λ found. option_map seen_front found
        ≡ option_map (reading.typed_front name.now) (option_map types.seen_front declared.entry)) }
{
    match declared {
        Some(front) => Ok(Some(VariableFront {
            variable: Variable {
                name: name.copy()?,
                declared: Some(front.declared),
            },
            rest: front.rest,
        })),
        None => Ok(None),
    }
}

/// The variable at the front of fragments, and what stands behind it.
pub fn variable_front<'a>(
    alloc: Global,
    fragments: &'a [Fragment],
    depth: &mut usize,
) -> Result<Option<VariableFront<'a>>, AllocError>
    ensures front { IfOk result
        (λ found. option_map seen_front found
        ≡ option_map capped_front
        (reading.variable_front (items_of (seen_fragments fragments.now)))) }
    ensures depth { IfOk result (λ found. FrontDepth depth.old depth.new found) }
{
    match variable_shape(fragments) {
        VariableShape::Nothing => Ok(None),
        VariableShape::Plain { name, rest } => Ok(Some(untyped(name, rest)?)),
        VariableShape::Typed { name, rest } => typed(name, type_front(alloc, rest, depth)?),
    }
}

/// A variable that nothing stands behind.
fn whole(front: Option<VariableFront>) -> Option<Variable>
    ensures { option_map read_variable result
        ≡ option_and_then reading.whole_variable (option_map seen_front front.entry) }
{
    match front {
        Some(front) => {
            if front.rest.is_empty() {
                Some(front.variable)
            } else {
                None
            }
        }
        None => None,
    }
}

/// The variable that fragments stand for.
pub fn variable_items(
    alloc: Global,
    fragments: &[Fragment],
    depth: &mut usize,
) -> Result<Option<Variable>, AllocError>
    ensures found { IfOk result
        (λ found. option_map read_variable found
        ≡ option_map capped_variable
        (reading.variable_items (items_of (seen_fragments fragments.now)))) }
    ensures depth { IfOk result (λ found. VariableDepth depth.old depth.new found) }
{
    Ok(whole(variable_front(alloc, fragments, depth)?))
}
