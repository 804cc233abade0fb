//! Lists and vectors put together from constants that were read.

ghost use Rattle.std.specs.Prelude.{◌≡◌, max, IfOk, map, option_map};
ghost use Rattle.dy_rules.specs.ConstantTrees as trees;
ghost use Rattle.dy_rules.specs.Depth.{constant_depth};
ghost use Rattle.dy_rules.specs.SeenTypes.{seen_constant};
ghost use Rattle.dy_rules_depth.specs.Capping.{deep_constant};
ghost use Rattle.dy_read_constants.specs.ConstantCaps.{read_constant};
ghost use Rattle.dy_read_constants.specs.ConstantShapes as spec;
ghost use Rattle.dy_read_constants.specs.ConstantFronts.{read_inside, read_vector, seen_inside};
ghost use Rattle.dy_read_constants.specs.ConstantFronts.{capped_list, capped_vector, inside_depth};
ghost use Rattle.dy_read_constants.specs.ConstantFronts.{items_depth, ConstantDepth, InsideDepth};
ghost use Rattle.dy_read_constants.specs.ConstantFronts.{VectorDepth};

use crate::list_inside::ListInside;
use dy_read_parts::depth::{DEPTH_LIMIT, deepen};
use dy_tree::{ConstantForm, LiteralForm, Token, TokenKind};
use std::alloc::{AllocError, Global};

/// A constant that stands in the place of one that is too deep.
fn absent_constant(token: &Token) -> Result<ConstantForm, AllocError>
    ensures { IfOk result (λ made. read_constant made ≡ deep_constant) }
{
    let mut token = token.copy()?;
    token.kind = TokenKind::PatternVar;
    Ok(ConstantForm::Literal(LiteralForm::Symbol(token)))
}

fn list_of(opener: Token, items: Vec<ConstantForm>, tail: Option<Box<ConstantForm>>) -> ConstantForm
    ensures { seen_constant result
        ≡ trees.list_item opener (trees.constants_of (map seen_constant items.items))
        (trees.tail_of (option_map (λ boxed. seen_constant boxed.value) tail)) }
{
    ConstantForm::List {
        opener,
        items,
        tail,
    }
}

fn vector_of(opener: Token, items: Vec<ConstantForm>) -> ConstantForm
    ensures { seen_constant result ≡ spec.vector_of opener (map seen_constant items.items) }
{
    ConstantForm::Vector { opener, items }
}

fn boxed(alloc: Global, last: Option<ConstantForm>) -> Result<Option<Box<ConstantForm>>, AllocError>
    ensures { IfOk result (λ made. option_map (λ boxed. seen_constant boxed.value) made
        ≡ option_map seen_constant last) }
{
    match last {
        Some(last) => Ok(Some(Box::new(alloc, last)?)),
        None => Ok(None),
    }
}

/// A list, as it lies in memory.
fn list_form(alloc: Global, opener: &Token, found: ListInside) -> Result<ConstantForm, AllocError>
    ensures { IfOk result (λ made. seen_constant made
        ≡ spec.list_of opener.now (seen_inside found)) }
{
    let tail = boxed(alloc, found.last)?;
    Ok(list_of(opener.copy()?, found.items, tail))
}

/// A vector, as it lies in memory.
fn vector_form(opener: &Token, items: Vec<ConstantForm>) -> Result<ConstantForm, AllocError>
    ensures { IfOk result (λ made. seen_constant made
        ≡ spec.vector_of opener.now (map seen_constant items.items)) }
{
    Ok(vector_of(opener.copy()?, items))
}

/// A list that is within the limit, or what stands for one that is not.
fn list_within(
    alloc: Global,
    opener: &Token,
    found: ListInside,
    inside: usize,
    depth: &mut usize,
) -> Result<ConstantForm, AllocError>
    requires { inside ≡ inside_depth (read_inside found) }
    ensures made { IfOk result
        (λ made. read_constant made ≡ capped_list opener.now (read_inside found)) }
    ensures depth { IfOk result
        (λ made. depth.new ≡ max depth.old (constant_depth (read_constant made))) }
{
    if inside < DEPTH_LIMIT {
        deepen(depth, inside + 1);
        list_form(alloc, opener, found)
    } else {
        deepen(depth, DEPTH_LIMIT + 1);
        absent_constant(opener)
    }
}

/// A list, of which the deepest constant is `inside` deep.
pub fn list_item(
    alloc: Global,
    opener: &Token,
    found: Option<ListInside>,
    inside: usize,
    depth: &mut usize,
) -> Result<Option<ConstantForm>, AllocError>
    requires { InsideDepth 0 inside found }
    ensures found { IfOk result
        (λ made. option_map read_constant made
        ≡ option_map (capped_list opener.now) (option_map read_inside found)) }
    ensures depth { IfOk result (λ made. ConstantDepth depth.old depth.new made) }
{
    match found {
        Some(found) => Ok(Some(list_within(alloc, opener, found, inside, depth)?)),
        None => Ok(None),
    }
}

/// A vector that is within the limit, or what stands for one that is not.
fn vector_within(
    opener: &Token,
    items: Vec<ConstantForm>,
    inside: usize,
    depth: &mut usize,
) -> Result<ConstantForm, AllocError>
    requires { inside ≡ items_depth (read_vector items) }
    ensures made { IfOk result
        (λ made. read_constant made ≡ capped_vector opener.now (read_vector items)) }
    ensures depth { IfOk result
        (λ made. depth.new ≡ max depth.old (constant_depth (read_constant made))) }
{
    if inside < DEPTH_LIMIT {
        deepen(depth, inside + 1);
        vector_form(opener, items)
    } else {
        deepen(depth, DEPTH_LIMIT + 1);
        absent_constant(opener)
    }
}

/// A vector, of which the deepest constant is `inside` deep.
pub fn vector_item(
    opener: &Token,
    items: Option<Vec<ConstantForm>>,
    inside: usize,
    depth: &mut usize,
) -> Result<Option<ConstantForm>, AllocError>
    requires { VectorDepth 0 inside items }
    ensures found { IfOk result
        (λ made. option_map read_constant made
        ≡ option_map (capped_vector opener.now) (option_map read_vector items)) }
    ensures depth { IfOk result (λ made. ConstantDepth depth.old depth.new made) }
{
    match items {
        Some(items) => Ok(Some(vector_within(opener, items, inside, depth)?)),
        None => Ok(None),
    }
}
