//! The first of several pieces.

ghost use Rattle.std.specs.Prelude.{◌≡◌, false, length};
ghost use Rattle.dy_tree.specs.Fragments.{seen_fragments};
ghost use Rattle.dy_rules.specs.Cutting.{cut};
ghost use Rattle.dy_rules.specs.Fragments.{items_of};
ghost use Rattle.dy_read_types.specs.Divisions.{divided_pieces, IsShorter, IsPieceWithin};
ghost use Rattle.dy_read_types.specs.Divisions.{IsRestWithin};
ghost use Rattle.dy_read_parts.specs.Nesting.{nesting};
ghost use Rattle.dy_read_parts.specs.Separators.{separates};

use dy_read_parts::cutting::piece_len;
use dy_read_parts::separator::Separator;
use dy_tree::Fragment;

/// A piece with a separator behind it, and what stands behind that.
#[derive(Clone, Copy, Debug)]
pub struct Division<'a> {
    pub piece: &'a [Fragment],
    pub separator: &'a Fragment,
    pub behind: &'a [Fragment],
}

/// The first piece and what stands behind it, where a separator stands there.
#[tactic(auto, using(dy_read_parts::proofs::Nesting::take_nesting, dy_read_parts::proofs::Nesting::drop_nesting))]
pub fn divide(separator: Separator, fragments: &[Fragment]) -> Option<Division<'_>>
    ensures pieces { cut (separates separator) false (items_of (seen_fragments fragments.now))
        ≡ divided_pieces (separates separator) (seen_fragments fragments.now) result }
    ensures shorter { IsShorter (length fragments.now) result }
    ensures nested { IsPieceWithin (nesting (seen_fragments fragments.now)) result }
    ensures behind { IsRestWithin (nesting (seen_fragments fragments.now)) result }
{
    let (piece, others) = fragments.split_at(piece_len(separator, false, fragments));
    match others.split_first() {
        Some((first, behind)) => Some(Division {
            piece,
            separator: first,
            behind,
        }),
        None => None,
    }
}
