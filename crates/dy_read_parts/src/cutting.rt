//! Fragments cut at separators.

ghost use Rattle.std.specs.Prelude.{◌≡◌, ◌≤◌, length, take, drop, option_map};
ghost use Rattle.dy_tree.specs.Fragments.{seen_fragments};
ghost use Rattle.dy_rules.specs.Cutting.{cut};
ghost use Rattle.dy_rules.specs.Fragments.{items_of};
ghost use Rattle.dy_read_parts.specs.Pieces.{front_len, pieces_behind, behind_first, seen_slice};
ghost use Rattle.dy_read_parts.specs.Pieces.{IsShorter, IsWithin};
ghost use Rattle.dy_read_parts.specs.Nesting.{nesting};
ghost use Rattle.dy_read_parts.specs.Separators.{separates};

use crate::separator::{Separator, is_let, separates};
use dy_tree::Fragment;

/// How many fragments stand in front of the first separator. What stands right behind a `let` is
/// none; `bound` says whether the first fragment stands there.
pub fn front_len(separator: Separator, bound: bool, fragments: &[Fragment]) -> usize
    ensures len { result ≡ front_len (separates separator) bound (seen_fragments fragments.now) }
    ensures within { result ≤ length fragments.now }
{
    let mut behind_let = bound;
    for at in 0..fragments.len() {
        let fragment = &fragments[at];
        if !behind_let && separates(separator, fragment) {
            return at;
        }
        behind_let = is_let(fragment);
    }
    fragments.len()
}

/// How many fragments stand in front of the first separator, so that the rest begins with it.
#[tactic(auto, using(crate::proofs::PieceRows::cut_at))]
pub fn piece_len(separator: Separator, bound: bool, fragments: &[Fragment]) -> usize
    ensures pieces { cut (separates separator) bound (items_of (seen_fragments fragments.now))
        ≡ pieces_behind (separates separator)
        (items_of (seen_fragments (take result fragments.now)))
        (seen_fragments (drop result fragments.now)) }
    ensures within { result ≤ length fragments.now }
{
    front_len(separator, bound, fragments)
}

/// What stands in front of the first separator, and the rest, which begins with it.
#[tactic(auto, using(crate::proofs::Nesting::take_nesting, crate::proofs::Nesting::drop_nesting))]
pub fn split_piece<'a>(
    separator: Separator,
    bound: bool,
    fragments: &'a [Fragment],
) -> (&'a [Fragment], &'a [Fragment])
    ensures pieces { cut (separates separator) bound (items_of (seen_fragments fragments.now))
        ≡ pieces_behind (separates separator) (items_of (seen_fragments result.0.now))
        (seen_fragments result.1.now) }
    ensures piece { nesting (seen_fragments result.0.now) ≤ nesting (seen_fragments fragments.now) }
    ensures others { nesting (seen_fragments result.1.now) ≤ nesting
        (seen_fragments fragments.now) }
    ensures len { length result.1.now ≤ length fragments.now }
{
    fragments.split_at(piece_len(separator, bound, fragments))
}

/// What stands behind the separator that fragments begin with.
pub fn behind_first<'a>(others: &'a [Fragment]) -> Option<&'a [Fragment]>
    ensures behind { option_map seen_slice result ≡ behind_first (seen_fragments others.now) }
    ensures shorter { IsShorter (length others.now) result }
    ensures nested { IsWithin (nesting (seen_fragments others.now)) result }
{
    match others.split_first() {
        Some((_, behind)) => Some(behind),
        None => None,
    }
}
