//! Lists and vectors of literals as expressions.

ghost use Rattle.std.specs.Prelude.{◌≡◌, IfOk, map, option_map};
ghost use Rattle.dy_tree.specs.Fragments.{pack, seen_fragments};
ghost use Rattle.dy_rules.specs.ConstantReading.{list_in, vector_in};
ghost use Rattle.dy_rules.specs.Fragments.{list_tree, vector_tree};
ghost use Rattle.dy_rules.specs.SeenForms.{seen_tree};
ghost use Rattle.dy_rules.specs.SeenTypes.{seen_constant};
ghost use Rattle.dy_rules_depth.specs.Capping.{capped};
ghost use Rattle.dy_read_constants.specs.ConstantFronts.{read_inside, read_vector, seen_inside};
ghost use Rattle.dy_read_constants.specs.ConstantFronts.{inside_depth, items_depth};
ghost use Rattle.dy_read_outers.specs.Grown.{read_grown};
ghost use Rattle.dy_read_operators.specs.ListTrees.{capped_list, capped_vector};

use dy_read_constants::constants::{list_inside, vector_inside};
use dy_read_constants::list_inside::ListInside;
use dy_read_outers::grown::Grown;
use dy_read_outers::nodes::{grown, too_deep};
use dy_read_parts::depth::DEPTH_LIMIT;
use dy_tree::{ConstantForm, Expression, Fragment, Token};
use std::alloc::{AllocError, Global};

/// A list, as it lies in memory.
fn list_form(opener: &Token, found: ListInside) -> Result<Expression, AllocError>
    ensures { IfOk result (λ made. seen_tree made ≡ list_tree opener.now (seen_inside found)) }
{
    Ok(Expression::List {
        opener: opener.copy()?,
        items: found.items,
        tail: found.last,
    })
}

/// A vector, as it lies in memory.
fn vector_form(opener: &Token, items: Vec<ConstantForm>) -> Result<Expression, AllocError>
    ensures { IfOk result (λ made. seen_tree made
        ≡ vector_tree opener.now (map seen_constant items.items)) }
{
    Ok(Expression::Vector {
        opener: opener.copy()?,
        items,
    })
}

/// A list, of which the deepest constant is `inside` deep.
fn list_within(
    alloc: Global,
    opener: &Token,
    found: ListInside,
    inside: usize,
) -> Result<Grown, AllocError>
    requires { inside ≡ inside_depth (read_inside found) }
    ensures { IfOk result (λ grown. read_grown grown ≡ capped_list opener.now (read_inside found)) }
{
    if inside < DEPTH_LIMIT {
        let tree = list_form(opener, found)?;
        grown(alloc, tree, inside + 1)
    } else {
        too_deep(alloc, opener)
    }
}

/// A vector, of which the deepest constant is `inside` deep.
fn vector_within(
    alloc: Global,
    opener: &Token,
    items: Vec<ConstantForm>,
    inside: usize,
) -> Result<Grown, AllocError>
    requires { inside ≡ items_depth (read_vector items) }
    ensures { IfOk result (λ grown. read_grown grown
        ≡ capped_vector opener.now (read_vector items)) }
{
    if inside < DEPTH_LIMIT {
        let tree = vector_form(opener, items)?;
        grown(alloc, tree, inside + 1)
    } else {
        too_deep(alloc, opener)
    }
}

/// The list that stands between `#(` and `)`.
pub fn list(
    alloc: Global,
    opener: &Token,
    fragments: &[Fragment],
) -> Result<Option<Grown>, AllocError>
    ensures { IfOk result (λ found. option_map read_grown found
        ≡ option_map capped (option_map (list_tree opener.now)
        (list_in (pack (seen_fragments fragments.now))))) }
{
    let mut inside = 0;
    match list_inside(alloc, fragments, &mut inside)? {
        Some(found) => Ok(Some(list_within(alloc, opener, found, inside)?)),
        None => Ok(None),
    }
}

/// The vector that stands between `#[` and `]`.
pub fn vector(
    alloc: Global,
    opener: &Token,
    fragments: &[Fragment],
) -> Result<Option<Grown>, AllocError>
    ensures { IfOk result (λ found. option_map read_grown found
        ≡ option_map capped (option_map (vector_tree opener.now)
        (vector_in (pack (seen_fragments fragments.now))))) }
{
    let mut inside = 0;
    match vector_inside(alloc, fragments, &mut inside)? {
        Some(items) => Ok(Some(vector_within(alloc, opener, items, inside)?)),
        None => Ok(None),
    }
}
