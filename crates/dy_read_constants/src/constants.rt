//! The lists and vectors of literals that fragments stand for.

ghost use Rattle.std.specs.Prelude.{◌≡◌, max, IfOk, length, option_map};
ghost use Rattle.dy_tree.specs.Fragments.{pack, seen_fragments};
ghost use Rattle.dy_rules.specs.ConstantReading as reading;
ghost use Rattle.dy_rules_depth.specs.Capping.{capped_constant};
ghost use Rattle.dy_read_constants.specs.ConstantCaps.{read_constant};
ghost use Rattle.dy_read_constants.specs.ConstantFronts.{read_front, read_inside, read_vector};
ghost use Rattle.dy_read_constants.specs.ConstantFronts.{capped_front, capped_inside, capped_items};
ghost use Rattle.dy_read_constants.specs.ConstantFronts.{FrontDepth, ConstantDepth, InsideDepth};
ghost use Rattle.dy_read_constants.specs.ConstantFronts.{VectorDepth, RestWithin, RestShorter};
ghost use Rattle.dy_read_constants.specs.ConstantShapes.{group_read};
ghost use Rattle.dy_read_constants.specs.ConstantShapes as spec;
ghost use Rattle.dy_read_parts.specs.Nesting.{nesting};

use crate::constant_front::{ConstantFront, in_front, literal, whole};
use crate::constant_nodes::{list_item, vector_item};
use crate::constant_shape::{ConstantShape, constant_shape};
use crate::list_inside::{ListInside, proper, with_tail};
use crate::list_next::{ListNext, behind_item, first_item};
use dy_tree::{Bracket, ConstantForm, Fragment, Token};
use std::alloc::{AllocError, Global};

/// The list or the vector that a group is.
#[cycle(constants)]
fn group_constant(
    alloc: Global,
    bracket: Bracket,
    opener: &Token,
    inner: &[Fragment],
    depth: &mut usize,
) -> Result<Option<ConstantForm>, AllocError>
    ensures found { IfOk result
        (λ found. option_map read_constant found
        ≡ option_map capped_constant (group_read bracket opener.now (seen_fragments inner.now))) }
    ensures depth { IfOk result (λ found. ConstantDepth depth.old depth.new found) }
{
    match bracket {
        Bracket::SharpRound => {
            let mut inside = 0;
            let found = list_inside(alloc, inner, &mut inside)?;
            list_item(alloc, opener, found, inside, depth)
        }
        Bracket::SharpSquare => {
            let mut inside = 0;
            let items = vector_inside(alloc, inner, &mut inside)?;
            vector_item(opener, items, inside, depth)
        }
        _ => Ok(None),
    }
}

/// The constant at the front of fragments, and what stands behind it.
#[cycle(constants)]
fn constant_front<'a>(
    alloc: Global,
    fragments: &'a [Fragment],
    depth: &mut usize,
) -> Result<Option<ConstantFront<'a>>, AllocError>
    ensures front { IfOk result
        (λ found. option_map read_front found
        ≡ option_map capped_front (spec.constant_front (seen_fragments fragments.now))) }
    ensures depth { IfOk result (λ found. FrontDepth depth.old depth.new found) }
    ensures nested { IfOk result
        (λ found. RestWithin (nesting (seen_fragments fragments.now)) found) }
    ensures shorter { IfOk result (λ found. RestShorter (length fragments.now) found) }
{
    match constant_shape(fragments)? {
        ConstantShape::Nothing => Ok(None),
        ConstantShape::Literal { form, rest } => Ok(in_front(Some(literal(form, depth)), rest)),
        ConstantShape::Group {
            bracket,
            opener,
            inner,
            rest,
        } => Ok(in_front(group_constant(alloc, bracket, opener, inner, depth)?, rest)),
    }
}

/// What stands inside of a list.
#[cycle(constants)]
pub fn list_inside(
    alloc: Global,
    fragments: &[Fragment],
    depth: &mut usize,
) -> Result<Option<ListInside>, AllocError>
    ensures found { IfOk result
        (λ found. option_map read_inside found
        ≡ option_map capped_inside (reading.list_in (pack (seen_fragments fragments.now)))) }
    ensures depth { IfOk result (λ found. InsideDepth depth.old depth.new found) }
{
    let mut items = Vec::new(alloc);
    let mut next = first_item(fragments);
    while let ListNext::Item(list) = next {
        match constant_front(alloc, list, depth)? {
            Some(ConstantFront { value, rest }) => {
                items.push(value)?;
                next = behind_item(rest);
            }
            None => return Ok(None),
        }
    }
    match next {
        ListNext::End => Ok(Some(ListInside { items, last: None })),
        ListNext::Tail(list) => {
            let last = whole(constant_front(alloc, list, depth)?);
            Ok(with_tail(items, last))
        }
        ListNext::Item(_) | ListNext::Other => Ok(None),
    }
}

/// What stands inside of a vector.
#[cycle(constants)]
pub fn vector_inside(
    alloc: Global,
    fragments: &[Fragment],
    depth: &mut usize,
) -> Result<Option<Vec<ConstantForm>>, AllocError>
    ensures found { IfOk result
        (λ found. option_map read_vector found
        ≡ option_map capped_items (reading.vector_in (pack (seen_fragments fragments.now)))) }
    ensures depth { IfOk result (λ found. VectorDepth depth.old depth.new found) }
{
    Ok(proper(list_inside(alloc, fragments, depth)?))
}
