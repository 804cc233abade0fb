//! `case` and `select`, with their arms.

ghost use Rattle.std.specs.Prelude.{◌≡◌, ℕ, Some, IfOk, option_map};
ghost use Rattle.dy_tree.specs.Fragments.{seen_fragments};
ghost use Rattle.dy_tree.specs.declared.brackets.Keyword.TheVariants as keywords;
ghost use Rattle.dy_rules.specs.Choices as choices;
ghost use Rattle.dy_rules.specs.Fragments.{items_of};
ghost use Rattle.dy_rules.specs.StatementReading.{statement_items};
ghost use Rattle.dy_rules_depth.specs.Capping.{capped, capping};
ghost use Rattle.dy_rules_depth.specs.ReaderChanges.{changed_choices, changed_head};
ghost use Rattle.dy_read_arms.specs.Arms.{read_behind, read_choices};
ghost use Rattle.dy_read_statements.specs.Heads.{read_head};
ghost use Rattle.dy_read_parts.specs.Cut.{seen_pieces};
ghost use Rattle.dy_read_outers.specs.Grown.{read_grown};
ghost use Rattle.dy_read_arms.specs.ReadArms as spec;
ghost use Rattle.dy_read_arms.specs.ReadBodies.{read_item};
ghost use Rattle.dy_read_arms.specs.BodyDepths.{ItemDepth};

use crate::bodies::item;
use crate::expressions::expression;
use dy_read_arms::arm_parts::{finished, no_choices, none_behind, with_arm, with_item, with_last};
use dy_read_arms::choices::{Choices, ChoicesBehind};
use dy_read_outers::grown::Grown;
use dy_read_parts::cutting::{behind_first, split_piece};
use dy_read_parts::depth::deepest;
use dy_read_parts::front::headed;
use dy_read_parts::kind::{PieceKind, kind_of};
use dy_read_parts::pieces::{Pieces, cut};
use dy_read_parts::separator::Separator;
use dy_read_parts::trim::without_end;
use dy_read_statements::arm_nodes::{case_with, select_with};
use dy_read_statements::head::{Head, HeadShape, alone, by_test, head_shape};
use dy_tree::{Expression, Fragment, Item, Splitting, Token};
use std::alloc::{AllocError, Global};

/// The tests of an arm, with commas between them.
#[cycle(read)]
fn tests(
    alloc: Global,
    fragments: &[Fragment],
    depth: &mut usize,
) -> Result<Option<Vec<Expression>>, AllocError>
    ensures found { IfOk result
        (λ found. option_map spec.read_tests found
        ≡ option_map spec.capped_trees
        (choices.tests_items (items_of (seen_fragments fragments.now)))) }
    ensures depth { IfOk result (λ found. spec.TestsDepth depth.old depth.new found) }
{
    let mut trees = Vec::new(alloc);
    let mut behind = Some(fragments);
    while let Some(list) = behind {
        let (piece, others) = split_piece(Separator::Comma, false, list);
        match expression(alloc, Splitting::Nothing, piece)? {
            Some(grown) => {
                *depth = deepest(*depth, grown.depth);
                trees.push(Box::into_inner(grown.tree))?;
            }
            None => return Ok(None),
        }
        behind = behind_first(others);
    }
    Ok(Some(trees))
}

fn present(item: Option<Item>) -> Option<Option<Item>>
    ensures found { option_map spec.read_first result
        ≡ option_map Some (option_map read_item item) }
    ensures depth { (old new : ℕ) → ItemDepth old new item → spec.FirstDepth old new result }
{
    match item {
        Some(item) => Some(Some(item)),
        None => None,
    }
}

/// The item behind an arrow, where one stands there.
#[cycle(read)]
fn first_item(
    alloc: Global,
    fragments: &[Fragment],
    depth: &mut usize,
) -> Result<Option<Option<Item>>, AllocError>
    ensures found { IfOk result
        (λ found. option_map spec.read_first found
        ≡ spec.capped_first (items_of (seen_fragments fragments.now))) }
    ensures depth { IfOk result (λ found. spec.FirstDepth depth.old depth.new found) }
{
    if fragments.is_empty() {
        return Ok(Some(None));
    }
    Ok(present(item(alloc, Splitting::Nothing, fragments, depth)?))
}

/// A piece in front of what was read.
#[cycle(read)]
fn choice(
    alloc: Global,
    single: bool,
    fragments: &[Fragment],
    behind: ChoicesBehind,
) -> Result<Option<ChoicesBehind>, AllocError>
    ensures { IfOk result (λ found. option_map read_behind found
        ≡ spec.capped_piece single (items_of (seen_fragments fragments.now)) (read_behind behind)) }
{
    let mut inside = 0;
    match kind_of(fragments) {
        PieceKind::Item => {
            let found = item(alloc, Splitting::Nothing, fragments, &mut inside)?;
            with_item(behind, found, inside)
        }
        PieceKind::Arm {
            tests: before,
            item: after,
        } => {
            let trees = tests(alloc, before, &mut inside)?;
            let first = first_item(alloc, after, &mut inside)?;
            with_arm(alloc, single, behind, trees, first, inside)
        }
        PieceKind::Otherwise(after) => {
            let first = first_item(alloc, after, &mut inside)?;
            with_last(alloc, behind, first, inside)
        }
        PieceKind::Absent => Ok(None),
    }
}

/// All pieces, from the last one on.
#[cycle(read)]
fn choices_in(
    alloc: Global,
    single: bool,
    pieces: &Pieces<'_>,
) -> Result<Option<ChoicesBehind>, AllocError>
    ensures { IfOk result (λ found. option_map read_behind found
        ≡ spec.capped_pieces single (seen_pieces pieces.now)) }
{
    let others = pieces.others.as_slice();
    let mut behind = none_behind(alloc);
    let mut left = others.len();
    while left > 0 {
        let piece = &others[left - 1];
        match choice(alloc, single, piece.fragments, behind)? {
            Some(next) => behind = next,
            None => return Ok(None),
        }
        left -= 1;
    }
    choice(alloc, single, pieces.first, behind)
}

/// The arms of a `case` or a `select`; `single` says whether each has one test.
#[cycle(read)]
#[tactic(auto, using(dy_read_statements::proofs::Arms::none_given, dy_read_statements::proofs::Arms::nothing_left))]
fn arms(alloc: Global, single: bool, fragments: &[Fragment]) -> Result<Option<Choices>, AllocError>
    ensures { IfOk result (λ found. option_map read_choices found
        ≡ option_map (changed_choices capping)
        (choices.arms_items single (items_of (seen_fragments fragments.now)))) }
{
    if fragments.is_empty() {
        return Ok(Some(no_choices(alloc)));
    }
    let ended = without_end(fragments);
    if ended.is_empty() {
        return Ok(None);
    }
    let pieces = cut(alloc, Separator::Semicolon, false, ended)?;
    Ok(finished(choices_in(alloc, single, &pieces)?))
}

/// What stands between the brackets of a `select`.
#[cycle(read)]
fn head(alloc: Global, fragments: &[Fragment]) -> Result<Option<Head>, AllocError>
    ensures { IfOk result (λ found. option_map read_head found
        ≡ option_map (changed_head capping)
        (choices.head_items (items_of (seen_fragments fragments.now)))) }
{
    match head_shape(fragments) {
        HeadShape::Alone(selected) => Ok(alone(expression(alloc, Splitting::Tests, selected)?)),
        HeadShape::Tested { selected, test } => {
            let value = expression(alloc, Splitting::Tests, selected)?;
            let compared = expression(alloc, Splitting::Tests, test)?;
            Ok(by_test(value, compared))
        }
        HeadShape::Absent => Ok(None),
    }
}

/// `case`
#[cycle(read)]
pub fn case(alloc: Global, word: &Token, inner: &[Fragment]) -> Result<Option<Grown>, AllocError>
    ensures { IfOk result (λ found. option_map read_grown found
        ≡ option_map capped (statement_items keywords.Case word.now
        (items_of (seen_fragments inner.now)))) }
{
    case_with(alloc, word, arms(alloc, true, inner)?)
}

/// `select`
#[cycle(read)]
pub fn select(alloc: Global, word: &Token, inner: &[Fragment]) -> Result<Option<Grown>, AllocError>
    ensures { IfOk result (λ found. option_map read_grown found
        ≡ option_map capped (statement_items keywords.Select word.now
        (items_of (seen_fragments inner.now)))) }
{
    match headed(inner) {
        None => Ok(None),
        Some(front) => {
            let found = head(alloc, front.inner)?;
            let behind = arms(alloc, false, front.rest)?;
            select_with(alloc, word, found, behind)
        }
    }
}
