//! The parts of a clause of a `for`.

ghost use Rattle.std.specs.Prelude.{◌≡◌, [], ◌∷◌, ◌≤◌, ℕ, List, map, option_map};
ghost use Rattle.std.specs.List.{All};
ghost use Rattle.dy_tree.specs.Fragments.{seen_fragments};
ghost use Rattle.dy_rules.specs.Cutting as cutting;
ghost use Rattle.dy_rules.specs.Fragments.{items_of};
ghost use Rattle.dy_rules.specs.Loops as loops;
ghost use Rattle.dy_rules.specs.Types as typing;
ghost use Rattle.dy_rules_depth.specs.Changes.{changed_for, changed_otherwise, changed_variable};
ghost use Rattle.dy_rules_depth.specs.ReaderChanges.{changed_range};
ghost use Rattle.dy_rules_depth.specs.Capping.{capping};
ghost use Rattle.dy_read_parts.specs.Cut.{seen_piece, IsPieceWithin};
ghost use Rattle.dy_read_shapes.specs.LoopShapes as spec;
ghost use Rattle.dy_read_parts.specs.Nesting.{nesting};

use dy_read_parts::mark::{is_equals_at, is_in, word_of};
use dy_read_parts::pieces::Piece;
use dy_read_words::splitter::{is_limit_word, splitter_of};
use dy_tree::{Fragment, Splitter, Token};

/// What stands behind the last word that splits a statement.
#[derive(Clone, Copy, Debug)]
pub enum LastPiece<'a> {
    /// No such word.
    Nothing,
    Part(&'a [Fragment]),
    /// Another word, or more than one.
    Wrong,
}

/// `to`, `above` or `below`, and the limit.
#[derive(Clone, Copy, Debug)]
pub struct LimitShape<'a> {
    pub word: &'a Token,
    pub bound: &'a [Fragment],
}

/// What follows the start: a limit or none, and a step or none.
#[derive(Clone, Copy, Debug)]
pub struct RangeShape<'a> {
    pub limit: Option<LimitShape<'a>>,
    pub step: LastPiece<'a>,
}

/// What stands behind the variable of a clause.
#[derive(Clone, Copy, Debug)]
pub enum ClauseParts<'a> {
    /// No clause.
    Nothing,
    /// `= first then next`
    Then {
        first: &'a [Fragment],
        next: &'a [Fragment],
    },
    /// `in collection`
    In {
        collection: &'a [Fragment],
    },
    /// `from start ..`
    From {
        start: &'a [Fragment],
        range: RangeShape<'a>,
    },
}

/// A piece behind `by`.
fn step_at<'a>(piece: &Piece<'a>) -> LastPiece<'a>
    ensures read { spec.step_read result
        ≡ option_map (changed_range capping) (loops.step_in (seen_piece piece.now ∷ [])) }
    ensures nested { (n : ℕ) → IsPieceWithin n piece.now → spec.IsLastWithin n result }
{
    match word_of(piece.separator) {
        Splitter::By => LastPiece::Part(piece.fragments),
        _ => LastPiece::Wrong,
    }
}

/// A step, or nothing.
fn step_piece<'a>(others: &[Piece<'a>]) -> LastPiece<'a>
    ensures read { spec.step_read result
        ≡ option_map (changed_range capping) (loops.step_in (map seen_piece others.now)) }
    ensures nested { (n : ℕ) → All (IsPieceWithin n) others.now → spec.IsLastWithin n result }
{
    match others {
        [] => LastPiece::Nothing,
        [piece] => step_at(piece),
        _ => LastPiece::Wrong,
    }
}

/// A piece behind `finally`.
#[tactic(auto, using(crate::proofs::LoopShapes::finally_capped))]
fn finally_at<'a>(piece: &Piece<'a>) -> LastPiece<'a>
    ensures read { spec.finally_read result
        ≡ option_map (changed_otherwise capping) (loops.finally_in (seen_piece piece.now ∷ [])) }
    ensures nested { (n : ℕ) → IsPieceWithin n piece.now → spec.IsLastWithin n result }
{
    match word_of(piece.separator) {
        Splitter::Finally => LastPiece::Part(piece.fragments),
        _ => LastPiece::Wrong,
    }
}

/// The part behind `finally`, or nothing.
pub fn finally_piece<'a>(others: &[Piece<'a>]) -> LastPiece<'a>
    ensures read { spec.finally_read result
        ≡ option_map (changed_otherwise capping) (loops.finally_in (map seen_piece others.now)) }
    ensures nested { (n : ℕ) → All (IsPieceWithin n) others.now → spec.IsLastWithin n result }
{
    match others {
        [] => LastPiece::Nothing,
        [piece] => finally_at(piece),
        _ => LastPiece::Wrong,
    }
}

/// The limit that a piece is.
#[tactic(auto, using(crate::proofs::LoopShapes::limit_capped))]
fn limit_at<'a>(piece: &Piece<'a>) -> Option<LimitShape<'a>>
    ensures read { (others : List cutting.Piece)
        → spec.limited_read result
        (option_map (changed_range capping) (loops.step_in (seen_piece piece.now ∷ others)))
        (option_map (changed_range capping) (loops.step_in others))
        ≡ option_map (changed_range capping) (loops.range_in (seen_piece piece.now ∷ others)) }
    ensures nested { (n : ℕ) → IsPieceWithin n piece.now → spec.IsLimitWithin n result }
{
    match piece.separator {
        Fragment::One(word) if is_limit_word(splitter_of(word)) => Some(LimitShape {
            word,
            bound: piece.fragments,
        }),
        _ => None,
    }
}

/// What follows the start.
fn range_shape<'a>(others: &[Piece<'a>]) -> RangeShape<'a>
    ensures read { spec.range_read result
        ≡ option_map (changed_range capping) (loops.range_in (map seen_piece others.now)) }
    ensures nested { (n : ℕ) → All (IsPieceWithin n) others.now → spec.IsRangeWithin n result }
{
    match others.split_first() {
        Some((piece, behind)) => match limit_at(piece) {
            Some(limit) => RangeShape {
                limit: Some(limit),
                step: step_piece(behind),
            },
            None => RangeShape {
                limit: None,
                step: step_piece(others),
            },
        },
        None => RangeShape {
            limit: None,
            step: LastPiece::Nothing,
        },
    }
}

#[tactic(auto, using(crate::proofs::LoopShapes::from_capped))]
fn from_parts<'a>(others: &[Piece<'a>]) -> ClauseParts<'a>
    ensures read { (variable : typing.VariableTree)
        → spec.parts_read (changed_variable capping variable) result
        ≡ option_map (changed_for capping) (loops.from_in variable (map seen_piece others.now)) }
    ensures nested { (n : ℕ) → All (IsPieceWithin n) others.now → spec.ArePartsWithin n result }
{
    match others.split_first() {
        Some((piece, behind)) if matches!(word_of(piece.separator), Splitter::From) => {
            ClauseParts::From {
                start: piece.fragments,
                range: range_shape(behind),
            }
        }
        _ => ClauseParts::Nothing,
    }
}

#[tactic(auto, using(crate::proofs::LoopShapes::then_capped))]
fn then_parts<'a>(first: &'a [Fragment], others: &[Piece<'a>]) -> ClauseParts<'a>
    ensures read { (variable : typing.VariableTree)
        → spec.parts_read (changed_variable capping variable) result
        ≡ option_map (changed_for capping)
        (loops.then_in variable (items_of (seen_fragments first.now)) (map seen_piece others.now)) }
    ensures nested { (n : ℕ) → nesting (seen_fragments first.now) ≤ n
        → All (IsPieceWithin n) others.now → spec.ArePartsWithin n result }
{
    match others {
        [piece] if matches!(word_of(piece.separator), Splitter::Then) => ClauseParts::Then {
            first,
            next: piece.fragments,
        },
        _ => ClauseParts::Nothing,
    }
}

#[tactic(auto, using(crate::proofs::LoopShapes::in_capped))]
fn in_parts<'a>(collection: &'a [Fragment], others: &[Piece<'a>]) -> ClauseParts<'a>
    ensures read { (variable : typing.VariableTree)
        → spec.parts_read (changed_variable capping variable) result
        ≡ option_map (changed_for capping)
        (loops.in_in variable (items_of (seen_fragments collection.now))
        (map seen_piece others.now)) }
    ensures nested { (n : ℕ) → nesting (seen_fragments collection.now) ≤ n
        → spec.ArePartsWithin n result }
{
    if others.is_empty() {
        ClauseParts::In { collection }
    } else {
        ClauseParts::Nothing
    }
}

/// The parts of a clause behind its variable: what stands in front of the first word that splits
/// it, and the pieces behind such words.
pub fn parts_behind<'a>(rest: &'a [Fragment], others: &[Piece<'a>]) -> ClauseParts<'a>
    ensures read { (variable : typing.VariableTree)
        → spec.parts_read (changed_variable capping variable) result
        ≡ option_map (changed_for capping)
        (loops.clause_behind variable (items_of (seen_fragments rest.now))
        (map seen_piece others.now)) }
    ensures nested { (n : ℕ) → nesting (seen_fragments rest.now) ≤ n
        → All (IsPieceWithin n) others.now → spec.ArePartsWithin n result }
{
    match rest.split_first() {
        Some((sign, behind)) => {
            if is_in(sign) {
                in_parts(behind, others)
            } else if is_equals_at(sign) {
                then_parts(behind, others)
            } else {
                ClauseParts::Nothing
            }
        }
        None => from_parts(others),
    }
}
