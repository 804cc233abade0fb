//! Trees put together from trees that were read.

ghost use Rattle.std.specs.Prelude.{◌≡◌, ◌≤◌, false, max, IfOk};
ghost use Rattle.dy_rules.specs.Depth as measure;
ghost use Rattle.dy_rules.specs.SeenForms.{seen_tree};
ghost use Rattle.dy_rules.specs.Trees as trees;
ghost use Rattle.dy_rules_depth.specs.Capping.{is_absent, deep_tree, capped};
ghost use Rattle.dy_read_outers.specs.Grown.{read_grown};
ghost use Rattle.dy_read_outers.specs.Passed.{read_passed};
ghost use Rattle.dy_read_outers.specs.ReadTrees.{read_tree, seen_list};

use crate::grown::Grown;
use crate::passed::Passed;
use dy_read_parts::depth::{DEPTH_LIMIT, deepest};
use dy_tree::{Argument, Expression, LiteralForm, Precedence, Token, TokenKind};
use std::alloc::{AllocError, Global};

/// A leaf that stands in the place of a tree that is too deep.
pub fn absent(token: &Token) -> Result<Expression, AllocError>
    ensures read { IfOk result (λ tree. read_tree tree ≡ deep_tree) }
    ensures within { IfOk result (λ tree. measure.depth (seen_tree tree) ≤ measure.depth_limit) }
{
    let mut token = token.copy()?;
    token.kind = TokenKind::PatternVar;
    Ok(Expression::Name(token))
}

/// A tree that is within the limit.
pub fn grown(alloc: Global, tree: Expression, depth: usize) -> Result<Grown, AllocError>
    requires depth_is { depth ≡ measure.depth (read_tree tree) }
    requires within { measure.depth (seen_tree tree) ≤ measure.depth_limit }
    ensures { IfOk result (λ grown. read_grown grown ≡ read_tree tree) }
{
    Ok(Grown {
        tree: Box::new(alloc, tree)?,
        depth,
    })
}

/// What stands for a tree that is too deep.
pub fn too_deep(alloc: Global, token: &Token) -> Result<Grown, AllocError>
    ensures { IfOk result (λ grown. read_grown grown ≡ deep_tree) }
{
    grown(alloc, absent(token)?, DEPTH_LIMIT + 1)
}

/// A literal of one token or two.
pub fn literal(alloc: Global, form: LiteralForm) -> Result<Grown, AllocError>
    ensures { IfOk result (λ grown. read_grown grown ≡ trees.literal form) }
{
    grown(alloc, Expression::Literal(form), 1)
}

/// A name.
pub fn name(alloc: Global, token: &Token) -> Result<Grown, AllocError>
    requires { is_absent token.now ≡ false }
    ensures { IfOk result (λ grown. read_grown grown ≡ trees.name token.now) }
{
    grown(alloc, Expression::Name(token.copy()?), 1)
}

fn call_of(function: Box<Expression>, arguments: Vec<Argument>) -> Expression
    ensures { seen_tree result
        ≡ trees.call (seen_tree function.value) (trees.arguments_of (seen_list arguments.items)) }
{
    Expression::Call {
        function,
        arguments,
    }
}

/// An operation of two operands.
pub fn operation(
    alloc: Global,
    precedence: Precedence,
    left: Grown,
    sign: Token,
    right: Grown,
) -> Result<Grown, AllocError>
    ensures { IfOk result (λ grown. read_grown grown
        ≡ capped (trees.operation precedence (read_grown left) sign (read_grown right))) }
{
    let inside = deepest(left.depth, right.depth);
    if inside < DEPTH_LIMIT {
        let tree = Expression::Operation {
            precedence,
            left: left.tree,
            operator: sign,
            right: right.tree,
        };
        grown(alloc, tree, inside + 1)
    } else {
        too_deep(alloc, &sign)
    }
}

/// An assignment, which has its sign in front of the value.
pub fn assignment(
    alloc: Global,
    place: Grown,
    sign: &Token,
    value: Grown,
) -> Result<Grown, AllocError>
    ensures { IfOk result (λ grown. read_grown grown
        ≡ capped (trees.assignment (read_grown place) (read_grown value))) }
{
    let inside = deepest(place.depth, value.depth);
    if inside < DEPTH_LIMIT {
        let tree = Expression::Assign {
            place: place.tree,
            value: value.tree,
        };
        grown(alloc, tree, inside + 1)
    } else {
        too_deep(alloc, sign)
    }
}

/// An operation of one operand.
pub fn unary(alloc: Global, sign: Token, operand: Grown) -> Result<Grown, AllocError>
    ensures { IfOk result (λ grown. read_grown grown
        ≡ capped (trees.unary sign (read_grown operand))) }
{
    let inside = operand.depth;
    if inside < DEPTH_LIMIT {
        let tree = Expression::Unary {
            operator: sign,
            operand: operand.tree,
        };
        grown(alloc, tree, inside + 1)
    } else {
        too_deep(alloc, &sign)
    }
}

/// A call, whose arguments stand behind this bracket.
pub fn call(
    alloc: Global,
    function: Grown,
    opener: &Token,
    passed: Passed,
) -> Result<Grown, AllocError>
    ensures { IfOk result (λ grown. read_grown grown
        ≡ capped (trees.call (read_grown function) (trees.arguments_of (read_passed passed)))) }
{
    let inside = deepest(function.depth, passed.depth);
    if inside < DEPTH_LIMIT {
        let tree = call_of(function.tree, passed.arguments);
        grown(alloc, tree, inside + 1)
    } else {
        too_deep(alloc, opener)
    }
}

/// An element of an object, whose index stands behind this bracket.
pub fn element(
    alloc: Global,
    object: Grown,
    opener: &Token,
    index: Grown,
) -> Result<Grown, AllocError>
    ensures { IfOk result (λ grown. read_grown grown
        ≡ capped (trees.element (read_grown object) opener.now (read_grown index))) }
{
    let inside = deepest(object.depth, index.depth);
    if inside < DEPTH_LIMIT {
        let opener = opener.copy()?;
        let tree = Expression::Element {
            object: object.tree,
            opener,
            index: index.tree,
        };
        grown(alloc, tree, inside + 1)
    } else {
        too_deep(alloc, opener)
    }
}

/// A member of an object.
pub fn member(alloc: Global, object: Grown, token: &Token) -> Result<Grown, AllocError>
    ensures { IfOk result (λ grown. read_grown grown
        ≡ capped (trees.member (read_grown object) token.now)) }
{
    let inside = object.depth;
    if inside < DEPTH_LIMIT {
        let name = token.copy()?;
        let tree = Expression::Member {
            object: object.tree,
            name,
        };
        grown(alloc, tree, inside + 1)
    } else {
        too_deep(alloc, token)
    }
}
