//! Clauses of a `for` put together from trees that were read.

ghost use Rattle.std.specs.Prelude.{◌≡◌, ℕ, max, IfOk, option_map, option_and_then};
ghost use Rattle.dy_rules.specs.Depth as measure;
ghost use Rattle.dy_rules.specs.Loops as loops;
ghost use Rattle.dy_rules.specs.SeenForms.{seen_for_clause, seen_initial, seen_tree};
ghost use Rattle.dy_rules.specs.SeenTypes.{seen_variable};
ghost use Rattle.dy_rules.specs.Trees as trees;
ghost use Rattle.dy_rules_depth.specs.Changes.{changed_limit, changed_maybe};
ghost use Rattle.dy_rules_depth.specs.Capping.{filling};
ghost use Rattle.dy_read_outers.specs.Grown.{read_grown};
ghost use Rattle.dy_rules.specs.Held.{held_limit};
ghost use Rattle.dy_read_shapes.specs.LoopShapes.{next_with};
ghost use Rattle.dy_read_statements.specs.ReadLoops.{read_bounded, read_step, read_range, read_for};
ghost use Rattle.dy_read_statements.specs.ReadLoops.{ForDepth};
ghost use Rattle.dy_read_types.specs.VariableFronts.{read_variable};

use dy_read_outers::grown::Grown;
use dy_read_parts::depth::deepen;
use dy_tree::{Expression, ForClause, Limit, Token, Variable};
use std::alloc::AllocError;

/// A limit that was read.
#[derive(Drop)]
pub struct Bounded {
    pub word: Token,
    pub bound: Grown,
}

/// What follows the start of a clause: a limit or none, and a step or none.
#[derive(Drop)]
pub struct Range {
    pub limit: Option<Bounded>,
    pub step: Option<Grown>,
}

/// Neither a limit nor a step.
pub fn no_range() -> Range
    ensures { read_range result ≡ loops.range_of trees.no_limit trees.no_tree }
{
    Range {
        limit: None,
        step: None,
    }
}

/// A step without a limit.
pub fn stepped(step: Option<Grown>) -> Option<Range>
    ensures { option_map read_range result ≡ option_map loops.step_of (option_map read_grown step) }
{
    match step {
        Some(step) => Some(Range {
            limit: None,
            step: Some(step),
        }),
        None => None,
    }
}

/// A limit, with the step behind it.
pub fn limited(
    word: &Token,
    bound: Option<Grown>,
    rest: Option<Range>,
) -> Result<Option<Range>, AllocError>
    ensures { IfOk result (λ found. option_map read_range found
        ≡ option_and_then (loops.limit_with word.now (option_map read_range rest))
        (option_map read_grown bound)) }
{
    match bound {
        Some(bound) => match rest {
            Some(rest) => Ok(Some(Range {
                limit: Some(Bounded {
                    word: word.copy()?,
                    bound,
                }),
                step: rest.step,
            })),
            None => Ok(None),
        },
        None => Ok(None),
    }
}

fn then_whole(variable: Variable, first: Grown, next: Grown, depth: &mut usize) -> ForClause
    ensures found { read_for result
        ≡ loops.then_of (read_variable variable) (read_grown first) (read_grown next) }
    ensures depth { (outer : ℕ)
        → depth.old ≡ max outer (measure.variable_depth (read_variable variable))
        → depth.new ≡ max outer (measure.for_clause_depth (read_for result)) }
{
    deepen(depth, first.depth);
    deepen(depth, next.depth);
    ForClause::Then {
        variable,
        first: Box::into_inner(first.tree),
        next: Box::into_inner(next.tree),
    }
}

/// `= first then next`
pub fn then_clause(
    variable: Variable,
    first: Option<Grown>,
    next: Option<Grown>,
    depth: &mut usize,
) -> Option<ForClause>
    ensures found { option_map read_for result
        ≡ option_and_then (next_with (read_variable variable) (option_map read_grown next))
        (option_map read_grown first) }
    ensures depth { (outer : ℕ)
        → depth.old ≡ max outer (measure.variable_depth (read_variable variable))
        → ForDepth outer depth.new result }
{
    match first {
        Some(first) => match next {
            Some(next) => Some(then_whole(variable, first, next, depth)),
            None => None,
        },
        None => None,
    }
}

/// `in collection`
pub fn in_clause(
    variable: Variable,
    collection: Option<Grown>,
    depth: &mut usize,
) -> Option<ForClause>
    ensures found { option_map read_for result
        ≡ option_map (loops.in_of (read_variable variable)) (option_map read_grown collection) }
    ensures depth { (outer : ℕ)
        → depth.old ≡ max outer (measure.variable_depth (read_variable variable))
        → ForDepth outer depth.new result }
{
    match collection {
        Some(collection) => {
            deepen(depth, collection.depth);
            Some(ForClause::In {
                variable,
                collection: Box::into_inner(collection.tree),
            })
        }
        None => None,
    }
}

fn limit_form(limit: Option<Bounded>, depth: &mut usize) -> Option<Limit>
    ensures read { changed_limit filling (held_limit result) ≡ read_bounded limit }
    ensures depth { depth.new ≡ max depth.old (measure.limit_depth (read_bounded limit)) }
{
    match limit {
        Some(limit) => {
            deepen(depth, limit.bound.depth);
            Some(Limit {
                word: limit.word,
                bound: Box::into_inner(limit.bound.tree),
            })
        }
        None => None,
    }
}

fn step_form(step: Option<Grown>, depth: &mut usize) -> Option<Expression>
    ensures read { changed_maybe filling (seen_initial result) ≡ read_step step }
    ensures depth { depth.new ≡ max depth.old (measure.maybe_depth (read_step step)) }
{
    match step {
        Some(step) => {
            deepen(depth, step.depth);
            Some(Box::into_inner(step.tree))
        }
        None => None,
    }
}

fn from_form(
    variable: Variable,
    start: Expression,
    limit: Option<Limit>,
    step: Option<Expression>,
) -> ForClause
    ensures { seen_for_clause result
        ≡ trees.from_clause (seen_variable variable) (seen_tree start) (held_limit limit)
        (seen_initial step) }
{
    ForClause::From {
        variable,
        start,
        limit,
        step,
    }
}

fn from_whole(variable: Variable, start: Grown, range: Range, depth: &mut usize) -> ForClause
    ensures found { read_for result
        ≡ loops.from_of (read_variable variable) (read_grown start) (read_range range) }
    ensures depth { (outer : ℕ)
        → depth.old ≡ max outer (measure.variable_depth (read_variable variable))
        → depth.new ≡ max outer (measure.for_clause_depth (read_for result)) }
{
    deepen(depth, start.depth);
    let limit = limit_form(range.limit, depth);
    let step = step_form(range.step, depth);
    from_form(variable, Box::into_inner(start.tree), limit, step)
}

/// `from start ..`
pub fn from_clause(
    variable: Variable,
    start: Option<Grown>,
    range: Option<Range>,
    depth: &mut usize,
) -> Option<ForClause>
    ensures found { option_map read_for result
        ≡ option_and_then (loops.from_with (read_variable variable) (option_map read_range range))
        (option_map read_grown start) }
    ensures depth { (outer : ℕ)
        → depth.old ≡ max outer (measure.variable_depth (read_variable variable))
        → ForDepth outer depth.new result }
{
    match start {
        Some(start) => match range {
            Some(range) => Some(from_whole(variable, start, range, depth)),
            None => None,
        },
        None => None,
    }
}
