//! A `for` put together from what was read.

ghost use Rattle.std.specs.Prelude.{◌≡◌, ◌+◌, IfOk, map, option_map};
ghost use Rattle.dy_rules.specs.Loops as loops;
ghost use Rattle.dy_rules.specs.SeenForms.{seen_statement};
ghost use Rattle.dy_rules.specs.Trees as trees;
ghost use Rattle.dy_rules_depth.specs.Capping.{capped};
ghost use Rattle.dy_read_outers.specs.Grown.{read_grown};
ghost use Rattle.dy_rules.specs.Held.{held_body, held_clauses, held_last, held_stop};
ghost use Rattle.dy_read_statements.specs.LoopHeads.{read_head};
ghost use Rattle.dy_read_statements.specs.Loops as spec;
ghost use Rattle.dy_read_arms.specs.ReadBodies.{read_items};

use crate::loop_head::ForHead;
use crate::statement_nodes::statement_within;
use dy_read_outers::grown::Grown;
use dy_tree::{ForClause, Item, Statement, Stop, Token};
use std::alloc::{AllocError, Global};

/// The part behind `finally`, or nothing.
#[derive(Drop)]
pub struct Finally {
    pub body: Option<Vec<Item>>,
}

/// Nothing behind the body.
pub fn no_finally() -> Finally
    ensures { spec.read_last result ≡ trees.no_otherwise }
{
    Finally { body: None }
}

/// A part behind `finally`.
pub fn finally_of(body: Option<Vec<Item>>) -> Option<Finally>
    ensures { option_map spec.read_last result
        ≡ option_map loops.finally_of (option_map read_items body) }
{
    match body {
        Some(body) => Some(Finally { body: Some(body) }),
        None => None,
    }
}

fn boxed_stop(alloc: Global, stop: Option<Stop>) -> Result<Option<Box<Stop>>, AllocError>
    ensures { IfOk result (λ boxed. held_stop boxed ≡ spec.seen_stop stop) }
{
    match stop {
        Some(stop) => Ok(Some(Box::new(alloc, stop)?)),
        None => Ok(None),
    }
}

fn for_tree(
    word: Token,
    clauses: Vec<ForClause>,
    stop: Option<Box<Stop>>,
    body: Vec<Item>,
    finally: Option<Vec<Item>>,
) -> Statement
    ensures { seen_statement result
        ≡ trees.for_tree word (held_clauses clauses) (held_stop stop) (held_body body)
        (held_last finally) }
{
    Statement::For {
        word,
        clauses,
        stop,
        body,
        finally,
    }
}

/// A `for` of parts of which the deepest is `inside` deep.
fn for_within(
    alloc: Global,
    word: &Token,
    head: ForHead,
    body: Vec<Item>,
    last: Finally,
    inside: usize,
) -> Result<Grown, AllocError>
    requires { inside ≡ spec.loop_depth (read_head head) (read_items body) (spec.read_last last) }
    ensures { IfOk result (λ grown. read_grown grown
        ≡ capped (loops.for_of word.now (read_head head) (read_items body) (spec.read_last last))) }
{
    let stop = boxed_stop(alloc, head.stop)?;
    let tree = for_tree(word.copy()?, head.clauses, stop, body, last.body);
    statement_within(alloc, word, tree, inside)
}

/// A `for`, where all of its parts were read.
pub fn for_node(
    alloc: Global,
    word: &Token,
    head: Option<ForHead>,
    body: Option<Vec<Item>>,
    last: Option<Finally>,
    inside: usize,
) -> Result<Option<Grown>, AllocError>
    requires { spec.LoopDepth inside head body last }
    ensures { IfOk result (λ found. option_map read_grown found
        ≡ option_map capped (spec.loop_made word.now (option_map read_head head)
        (option_map read_items body) (option_map spec.read_last last))) }
{
    match head {
        Some(head) => match body {
            Some(body) => match last {
                Some(last) => Ok(Some(for_within(alloc, word, head, body, last, inside)?)),
                None => Ok(None),
            },
            None => Ok(None),
        },
        None => Ok(None),
    }
}
