//! The clauses of a `for`.

ghost use Rattle.std.specs.Prelude.{◌≡◌, ℕ, max, IfOk, option_map};
ghost use Rattle.dy_tree.specs.Fragments.{seen_fragments};
ghost use Rattle.dy_rules.specs.Depth as measure;
ghost use Rattle.dy_rules.specs.Fragments.{items_of};
ghost use Rattle.dy_rules.specs.Loops as loops;
ghost use Rattle.dy_rules_depth.specs.Changes.{changed_for};
ghost use Rattle.dy_rules_depth.specs.ReaderChanges.{changed_loop};
ghost use Rattle.dy_rules_depth.specs.Capping.{capping};
ghost use Rattle.dy_read_types.specs.Endings.{parts_before};
ghost use Rattle.dy_read_statements.specs.LoopHeads.{read_head, capped_last, capped_parts};
ghost use Rattle.dy_read_statements.specs.LoopHeads.{fors_depth, HeadDepth};
ghost use Rattle.dy_read_shapes.specs.LoopShapes as spec;
ghost use Rattle.dy_read_statements.specs.ReadLoops.{read_range, read_for, read_fors, ForDepth};
ghost use Rattle.dy_read_types.specs.VariableFronts.{read_variable};

use crate::expressions::expression;
use dy_read_parts::separator::Separator;
use dy_read_shapes::clause_shape::clause_shape;
use dy_read_shapes::loop_shape::{ClauseParts, LastPiece, RangeShape};
use dy_read_statements::clause_nodes::{
    Range, from_clause, in_clause, limited, no_range, stepped, then_clause,
};
use dy_read_statements::loop_head::{
    ForHead, LastShape, empty_head, last_shape, with_clause, with_stop,
};
use dy_read_types::division::divide;
use dy_tree::{ForClause, Fragment, Splitting, Variable};
use std::alloc::{AllocError, Global};

/// A step, or nothing.
#[cycle(read)]
fn step(alloc: Global, shape: LastPiece) -> Result<Option<Range>, AllocError>
    ensures { IfOk result (λ found. option_map read_range found ≡ spec.step_read shape.entry) }
{
    match shape {
        LastPiece::Nothing => Ok(Some(no_range())),
        LastPiece::Part(fragments) => Ok(stepped(expression(alloc, Splitting::Steps, fragments)?)),
        LastPiece::Wrong => Ok(None),
    }
}

/// What follows the start of a clause.
#[cycle(read)]
fn range(alloc: Global, shape: RangeShape) -> Result<Option<Range>, AllocError>
    ensures { IfOk result (λ found. option_map read_range found ≡ spec.range_read shape.entry) }
{
    let rest = step(alloc, shape.step)?;
    match shape.limit {
        Some(limit) => {
            let bound = expression(alloc, Splitting::Steps, limit.bound)?;
            limited(limit.word, bound, rest)
        }
        None => Ok(rest),
    }
}

/// The clause that has these parts behind its variable.
#[cycle(read)]
fn clause_of(
    alloc: Global,
    variable: Variable,
    parts: ClauseParts,
    depth: &mut usize,
) -> Result<Option<ForClause>, AllocError>
    ensures found { IfOk result
        (λ found. option_map read_for found
        ≡ spec.parts_read (read_variable variable) parts.entry) }
    ensures depth { IfOk result
        (λ found. (outer : ℕ) → depth.old
        ≡ max outer (measure.variable_depth (read_variable variable))
        → ForDepth outer depth.new found) }
{
    match parts {
        ClauseParts::Nothing => Ok(None),
        ClauseParts::Then { first, next } => {
            let first = expression(alloc, Splitting::Steps, first)?;
            let next = expression(alloc, Splitting::Steps, next)?;
            Ok(then_clause(variable, first, next, depth))
        }
        ClauseParts::In { collection } => {
            let collection = expression(alloc, Splitting::Steps, collection)?;
            Ok(in_clause(variable, collection, depth))
        }
        ClauseParts::From {
            start,
            range: shape,
        } => {
            let start = expression(alloc, Splitting::Steps, start)?;
            let range = range(alloc, shape)?;
            Ok(from_clause(variable, start, range, depth))
        }
    }
}

/// The clause that fragments stand for.
#[cycle(read)]
fn for_clause(
    alloc: Global,
    fragments: &[Fragment],
    depth: &mut usize,
) -> Result<Option<ForClause>, AllocError>
    ensures found { IfOk result
        (λ found. option_map read_for found
        ≡ option_map (changed_for capping)
        (loops.clause_items (items_of (seen_fragments fragments.now)))) }
    ensures depth { IfOk result (λ found. ForDepth depth.old depth.new found) }
{
    match clause_shape(alloc, fragments, depth)? {
        Some(shape) => clause_of(alloc, shape.variable, shape.parts, depth),
        None => Ok(None),
    }
}

/// The last part of a head, behind the clauses that were read before it.
#[cycle(read)]
fn last_part(
    alloc: Global,
    clauses: Vec<ForClause>,
    fragments: &[Fragment],
    depth: &mut usize,
) -> Result<Option<ForHead>, AllocError>
    ensures found { IfOk result
        (λ found. option_map read_head found
        ≡ parts_before (read_fors clauses.items) (capped_last (seen_fragments fragments.now))) }
    ensures depth { IfOk result
        (λ found. (outer : ℕ) → depth.old ≡ max outer (fors_depth clauses.items)
        → HeadDepth outer depth.new found) }
{
    match last_shape(fragments) {
        LastShape::Stop { keyword, test } => {
            let test = expression(alloc, Splitting::Steps, test)?;
            with_stop(clauses, keyword, test, depth)
        }
        LastShape::Clause => {
            let clause = for_clause(alloc, fragments, depth)?;
            with_clause(clauses, clause)
        }
    }
}

/// What stands between the brackets of a `for`, where that is not empty.
#[cycle(read)]
#[tactic(auto, using(dy_read_types::proofs::Endings::no_parts_before))]
fn head_parts(
    alloc: Global,
    fragments: &[Fragment],
    depth: &mut usize,
) -> Result<Option<ForHead>, AllocError>
    ensures found { IfOk result
        (λ found. option_map read_head found ≡ capped_parts (seen_fragments fragments.now)) }
    ensures depth { IfOk result (λ found. HeadDepth depth.old depth.new found) }
{
    let mut clauses = Vec::new(alloc);
    let mut rest = fragments;
    while let Some(division) = divide(Separator::Comma, rest) {
        match for_clause(alloc, division.piece, depth)? {
            Some(clause) => clauses.push(clause)?,
            None => return Ok(None),
        }
        rest = division.behind;
    }
    last_part(alloc, clauses, rest, depth)
}

/// What stands between the brackets of a `for`.
#[cycle(read)]
pub fn for_clauses(
    alloc: Global,
    fragments: &[Fragment],
    depth: &mut usize,
) -> Result<Option<ForHead>, AllocError>
    ensures found { IfOk result
        (λ found. option_map read_head found
        ≡ option_map (changed_loop capping)
        (loops.for_items (items_of (seen_fragments fragments.now)))) }
    ensures depth { IfOk result (λ found. HeadDepth depth.old depth.new found) }
{
    if fragments.is_empty() {
        Ok(Some(empty_head(alloc)))
    } else {
        head_parts(alloc, fragments, depth)
    }
}
