//! `if`, with its alternatives.

ghost use Rattle.std.specs.Prelude.{◌≡◌, IfOk, map, option_map};
ghost use Rattle.dy_tree.specs.Fragments.{seen_fragments};
ghost use Rattle.dy_tree.specs.declared.brackets.Keyword.TheVariants as keywords;
ghost use Rattle.dy_rules.specs.Depth as measure;
ghost use Rattle.dy_rules.specs.Fragments.{items_of};
ghost use Rattle.dy_rules.specs.StatementReading.{statement_items};
ghost use Rattle.dy_rules.specs.Trees as trees;
ghost use Rattle.dy_rules_depth.specs.Capping.{capped};
ghost use Rattle.dy_read_statements.specs.Branches.{read_others, capped_others};
ghost use Rattle.dy_read_parts.specs.Cut.{seen_piece};
ghost use Rattle.dy_read_outers.specs.Grown.{read_grown};
ghost use Rattle.dy_read_statements.specs.ReadBranches as spec;
ghost use Rattle.dy_read_arms.specs.ReadBodies.{read_items};
ghost use Rattle.dy_read_arms.specs.BodyDepths.{BodyDepth};
ghost use Rattle.dy_read_statements.specs.ReadStatements.{both, all_three};

use crate::bodies::body;
use crate::expressions::expression;
use dy_read_outers::grown::Grown;
use dy_read_parts::depth::deepest;
use dy_read_parts::pieces::{Piece, cut};
use dy_read_parts::separator::Separator;
use dy_read_statements::branch::{Branch, branch_at};
use dy_read_statements::others::Others;
use dy_read_statements::statement_nodes::{if_tree, statement_within};
use dy_read_statements::tested::tested;
use dy_tree::{Alternative, Fragment, Item, Splitting, Token};
use std::alloc::{AllocError, Global};

/// An alternative, which is `inside` deep but for its test.
fn alternative_with(
    test: Option<Grown>,
    body: Option<Vec<Item>>,
    inside: usize,
    depth: &mut usize,
) -> Option<Alternative>
    requires { BodyDepth 0 inside body }
    ensures found { option_map spec.read_alternative result
        ≡ both spec.alternative_of (option_map read_grown test) (option_map read_items body) }
    ensures depth { spec.AlternativeDepth depth.old depth.new result }
{
    let Some(test) = test else {
        return None;
    };
    match body {
        Some(body) => {
            *depth = deepest(*depth, deepest(test.depth, inside));
            Some(Alternative {
                test: Box::into_inner(test.tree),
                body,
            })
        }
        None => None,
    }
}

/// What stands behind an `elseif`.
#[cycle(read)]
fn alternative(
    alloc: Global,
    fragments: &[Fragment],
    depth: &mut usize,
) -> Result<Option<Alternative>, AllocError>
    ensures found { IfOk result
        (λ found. option_map spec.read_alternative found
        ≡ option_map spec.capped_alternative
        (spec.alternative_items (items_of (seen_fragments fragments.now)))) }
    ensures depth { IfOk result (λ found. spec.AlternativeDepth depth.old depth.new found) }
{
    match tested(fragments) {
        None => Ok(None),
        Some(front) => {
            let test = expression(alloc, Splitting::Nothing, front.inner)?;
            let mut inside = 0;
            let trees = body(alloc, Splitting::Branches, front.rest, &mut inside)?;
            Ok(alternative_with(test, trees, inside, depth))
        }
    }
}

/// Alternatives with the body behind `else`.
fn with_last(
    alternatives: Vec<Alternative>,
    body: Option<Vec<Item>>,
    depth: usize,
) -> Option<Others>
    requires { spec.LastDepth depth alternatives.items body }
    ensures { option_map read_others result
        ≡ option_map (spec.others_with (map spec.read_alternative alternatives.items))
        (option_map read_items body) }
{
    match body {
        Some(body) => Some(Others {
            alternatives,
            otherwise: Some(body),
            depth,
        }),
        None => None,
    }
}

/// The alternatives behind the first body of an `if`.
#[cycle(read)]
#[tactic(auto, using(dy_read_statements::proofs::Branches::before_none, dy_read_statements::proofs::Branches::none_begins, dy_read_statements::proofs::Branches::not_last))]
fn others(alloc: Global, pieces: &[Piece<'_>]) -> Result<Option<Others>, AllocError>
    ensures { IfOk result (λ found. option_map read_others found
        ≡ capped_others (map seen_piece pieces.now)) }
{
    let mut alternatives = Vec::new(alloc);
    let mut depth = 0;
    let mut index = 0;
    while index < pieces.len() {
        let piece = &pieces[index];
        match branch_at(piece.separator) {
            Branch::Elseif => match alternative(alloc, piece.fragments, &mut depth)? {
                Some(alternative) => alternatives.push(alternative)?,
                None => return Ok(None),
            },
            Branch::Else => {
                if index + 1 < pieces.len() {
                    return Ok(None);
                }
                let last = body(alloc, Splitting::Branches, piece.fragments, &mut depth)?;
                return Ok(with_last(alternatives, last, depth));
            }
            Branch::Absent => return Ok(None),
        }
        index += 1;
    }
    Ok(Some(Others {
        alternatives,
        otherwise: None,
        depth,
    }))
}

fn if_within(
    alloc: Global,
    word: &Token,
    test: Grown,
    body: Vec<Item>,
    inside: usize,
    others: Others,
) -> Result<Grown, AllocError>
    requires { inside ≡ measure.body_depth (trees.body_of (read_items body)) }
    ensures { IfOk result (λ grown. read_grown grown
        ≡ spec.capped_if word.now (read_grown test) (read_items body) (read_others others)) }
{
    let inside = deepest(deepest(test.depth, inside), others.depth);
    let tree = if_tree(
        word.copy()?,
        test.tree,
        body,
        others.alternatives,
        others.otherwise,
    );
    statement_within(alloc, word, tree, inside)
}

fn if_with(
    alloc: Global,
    word: &Token,
    test: Option<Grown>,
    body: Option<Vec<Item>>,
    inside: usize,
    others: Option<Others>,
) -> Result<Option<Grown>, AllocError>
    requires { BodyDepth 0 inside body }
    ensures { IfOk result (λ found. option_map read_grown found
        ≡ all_three (spec.capped_if word.now) (option_map read_grown test)
        (option_map read_items body) (option_map read_others others)) }
{
    let Some(test) = test else {
        return Ok(None);
    };
    let Some(body) = body else {
        return Ok(None);
    };
    match others {
        Some(others) => Ok(Some(if_within(alloc, word, test, body, inside, others)?)),
        None => Ok(None),
    }
}

/// `if`
#[cycle(read)]
pub fn if_statement(
    alloc: Global,
    word: &Token,
    inner: &[Fragment],
) -> Result<Option<Grown>, AllocError>
    ensures { IfOk result (λ found. option_map read_grown found
        ≡ option_map capped (statement_items keywords.If word.now
        (items_of (seen_fragments inner.now)))) }
{
    match tested(inner) {
        None => Ok(None),
        Some(front) => {
            let test = expression(alloc, Splitting::Nothing, front.inner)?;
            let words = Separator::Splitter(Splitting::Branches);
            let pieces = cut(alloc, words, false, front.rest)?;
            let mut inside = 0;
            let trees = body(alloc, Splitting::Branches, pieces.first, &mut inside)?;
            let behind = others(alloc, pieces.others.as_slice())?;
            if_with(alloc, word, test, trees, inside, behind)
        }
    }
}
