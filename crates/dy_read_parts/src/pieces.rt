//! The pieces of a list, one behind each separator.

ghost use Rattle.std.specs.Prelude.{◌≡◌, IfOk};
ghost use Rattle.dy_tree.specs.Fragments.{seen_fragments};
ghost use Rattle.dy_rules.specs.Cutting.{cut};
ghost use Rattle.dy_rules.specs.Fragments.{items_of};
ghost use Rattle.dy_read_parts.specs.Cut.{seen_pieces, AreWithin};
ghost use Rattle.dy_read_parts.specs.Nesting.{nesting};
ghost use Rattle.dy_read_parts.specs.Separators.{separates};

use crate::cutting::split_piece;
use crate::separator::Separator;
use dy_tree::Fragment;
use std::alloc::{AllocError, Global};

/// What stands behind a separator, as far as the next one.
#[derive(Clone, Copy, Debug)]
pub struct Piece<'a> {
    pub separator: &'a Fragment,
    pub fragments: &'a [Fragment],
}

/// The pieces of a list.
#[derive(Debug, Drop)]
pub struct Pieces<'a> {
    /// What stands in front of the first separator.
    pub first: &'a [Fragment],
    pub others: Vec<Piece<'a>>,
}

/// Cuts fragments at each separator. What stands right behind a `let` is none; `bound` says whether
/// the first fragment stands there.
pub fn cut(
    alloc: Global,
    separator: Separator,
    bound: bool,
    fragments: &[Fragment],
) -> Result<Pieces<'_>, AllocError>
    ensures pieces { IfOk result
        (λ pieces. seen_pieces pieces
        ≡ cut (separates separator) bound (items_of (seen_fragments fragments.now))) }
    ensures nested { IfOk result
        (λ pieces. AreWithin (nesting (seen_fragments fragments.now)) pieces) }
{
    let (first, behind_first) = split_piece(separator, bound, fragments);
    let mut others = Vec::new(alloc);
    let mut rest = behind_first;
    while let Some((mark, behind)) = rest.split_first() {
        let (piece, others_behind) = split_piece(separator, false, behind);
        others.push(Piece {
            separator: mark,
            fragments: piece,
        })?;
        rest = others_behind;
    }
    Ok(Pieces { first, others })
}
