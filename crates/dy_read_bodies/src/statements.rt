//! The statements of a word and one body.

ghost use Rattle.std.specs.Prelude.{◌≡◌, IfOk, option_map};
ghost use Rattle.dy_tree.specs.Fragments.{seen_fragments};
ghost use Rattle.dy_tree.specs.declared.brackets.Keyword.TheVariants as keywords;
ghost use Rattle.dy_rules.specs.Depth as measure;
ghost use Rattle.dy_rules.specs.Fragments.{items_of};
ghost use Rattle.dy_rules.specs.StatementReading.{statement_items};
ghost use Rattle.dy_rules.specs.Trees as trees;
ghost use Rattle.dy_rules_depth.specs.Capping.{capped};
ghost use Rattle.dy_read_outers.specs.Grown.{read_grown};
ghost use Rattle.dy_read_arms.specs.ReadBodies.{read_items};
ghost use Rattle.dy_read_arms.specs.BodyDepths.{BodyDepth};
ghost use Rattle.dy_read_statements.specs.ReadMethods.{read_parts, parts_depth, MethodReadDepth};
ghost use Rattle.dy_read_statements.specs.ReadStatements.{both, capped_begin, capped_guarded};
ghost use Rattle.dy_read_statements.specs.ReadStatements.{capped_method_tree};

use crate::bodies::body;
use crate::expressions::expression;
use crate::methods::method;
use dy_read_outers::grown::Grown;
use dy_read_parts::depth::deepest;
use dy_read_statements::method_read::MethodRead;
use dy_read_statements::statement_nodes::{
    begin_tree, guarded_tree, method_tree, statement_within,
};
use dy_read_statements::tested::tested;
use dy_tree::{Fragment, Guard, Item, Splitting, Token};
use std::alloc::{AllocError, Global};

fn begin_within(
    alloc: Global,
    word: &Token,
    body: Vec<Item>,
    inside: usize,
) -> Result<Grown, AllocError>
    requires { inside ≡ measure.body_depth (trees.body_of (read_items body)) }
    ensures { IfOk result (λ grown. read_grown grown ≡ capped_begin word.now (read_items body)) }
{
    let tree = begin_tree(word.copy()?, body);
    statement_within(alloc, word, tree, inside)
}

fn begin_with(
    alloc: Global,
    word: &Token,
    body: Option<Vec<Item>>,
    inside: usize,
) -> Result<Option<Grown>, AllocError>
    requires { BodyDepth 0 inside body }
    ensures { IfOk result (λ found. option_map read_grown found
        ≡ option_map (capped_begin word.now) (option_map read_items body)) }
{
    match body {
        Some(body) => Ok(Some(begin_within(alloc, word, body, inside)?)),
        None => Ok(None),
    }
}

/// `begin`
#[cycle(read)]
pub fn begin(alloc: Global, word: &Token, inner: &[Fragment]) -> Result<Option<Grown>, AllocError>
    ensures { IfOk result (λ found. option_map read_grown found
        ≡ option_map capped (statement_items keywords.Begin word.now
        (items_of (seen_fragments inner.now)))) }
{
    let mut inside = 0;
    let trees = body(alloc, Splitting::Nothing, inner, &mut inside)?;
    begin_with(alloc, word, trees, inside)
}

fn guarded_within(
    alloc: Global,
    guard: Guard,
    word: &Token,
    test: Grown,
    body: Vec<Item>,
    inside: usize,
) -> Result<Grown, AllocError>
    requires { inside ≡ measure.body_depth (trees.body_of (read_items body)) }
    ensures { IfOk result (λ grown. read_grown grown
        ≡ capped_guarded guard word.now (read_grown test) (read_items body)) }
{
    let inside = deepest(test.depth, inside);
    let tree = guarded_tree(guard, word.copy()?, test.tree, body);
    statement_within(alloc, word, tree, inside)
}

fn guarded_with(
    alloc: Global,
    guard: Guard,
    word: &Token,
    test: Option<Grown>,
    body: Option<Vec<Item>>,
    inside: usize,
) -> Result<Option<Grown>, AllocError>
    requires { BodyDepth 0 inside body }
    ensures { IfOk result (λ found. option_map read_grown found
        ≡ both (capped_guarded guard word.now) (option_map read_grown test)
        (option_map read_items body)) }
{
    let Some(test) = test else {
        return Ok(None);
    };
    match body {
        Some(body) => Ok(Some(guarded_within(alloc, guard, word, test, body, inside)?)),
        None => Ok(None),
    }
}

/// `unless`, `while` or `until`
#[cycle(read)]
pub fn guarded(
    alloc: Global,
    guard: Guard,
    word: &Token,
    inner: &[Fragment],
) -> Result<Option<Grown>, AllocError>
    ensures { IfOk result (λ found. option_map read_grown found
        ≡ option_map capped (statement_items (keywords.Guard guard) word.now
        (items_of (seen_fragments inner.now)))) }
{
    match tested(inner) {
        None => Ok(None),
        Some(front) => {
            let test = expression(alloc, Splitting::Nothing, front.inner)?;
            let mut inside = 0;
            let trees = body(alloc, Splitting::Nothing, front.rest, &mut inside)?;
            guarded_with(alloc, guard, word, test, trees, inside)
        }
    }
}

fn method_within(
    alloc: Global,
    word: &Token,
    method: MethodRead,
    inside: usize,
) -> Result<Grown, AllocError>
    requires { inside ≡ parts_depth (read_parts method) }
    ensures { IfOk result (λ grown. read_grown grown
        ≡ capped_method_tree word.now (read_parts method)) }
{
    let parameters = Box::new(alloc, method.parameters)?;
    let tree = method_tree(word.copy()?, parameters, method.body);
    statement_within(alloc, word, tree, inside)
}

fn method_with(
    alloc: Global,
    word: &Token,
    method: Option<MethodRead>,
    inside: usize,
) -> Result<Option<Grown>, AllocError>
    requires { MethodReadDepth 0 inside method }
    ensures { IfOk result (λ found. option_map read_grown found
        ≡ option_map (capped_method_tree word.now) (option_map read_parts method)) }
{
    match method {
        Some(method) => Ok(Some(method_within(alloc, word, method, inside)?)),
        None => Ok(None),
    }
}

/// `method`, as an expression
#[cycle(read)]
pub fn method_statement(
    alloc: Global,
    word: &Token,
    inner: &[Fragment],
) -> Result<Option<Grown>, AllocError>
    ensures { IfOk result (λ found. option_map read_grown found
        ≡ option_map capped (statement_items keywords.Method word.now
        (items_of (seen_fragments inner.now)))) }
{
    let mut inside = 0;
    let found = method(alloc, inner, &mut inside)?;
    method_with(alloc, word, found, inside)
}
