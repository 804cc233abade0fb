//! What stands between two semicolons of a `case` or a `select`.

ghost use Rattle.std.specs.Prelude.{◌≡◌, false};
ghost use Rattle.dy_tree.specs.Fragments.{seen_fragments};
ghost use Rattle.dy_rules.specs.Choices as spec;
ghost use Rattle.dy_rules.specs.Cutting.{cut, is_arrow};
ghost use Rattle.dy_rules.specs.Fragments.{items_of};
ghost use Rattle.dy_read_parts.specs.Nesting.{nesting};
ghost use Rattle.dy_read_parts.specs.PieceKind.{kind_cut, seen_kind, IsKindWithin};

use crate::cutting::split_piece;
use crate::mark::is_remains;
use crate::separator::Separator;
use crate::trim::without_arrow;
use dy_tree::Fragment;

/// What stands between two semicolons.
#[derive(Clone, Copy, Debug)]
pub enum PieceKind<'a> {
    /// An item of the arm that began before.
    Item,
    /// The tests of an arm, and the first item behind its arrow.
    Arm {
        tests: &'a [Fragment],
        item: &'a [Fragment],
    },
    /// The first item of the `otherwise`.
    Otherwise(&'a [Fragment]),
    /// None of these: two arrows.
    Absent,
}

/// What a piece is that does not begin with `otherwise`.
fn kind_of_arrows(fragments: &[Fragment]) -> PieceKind<'_>
    ensures kind { seen_kind result
        ≡ kind_cut (cut is_arrow false (items_of (seen_fragments fragments.now))) }
    ensures nested { IsKindWithin (nesting (seen_fragments fragments.now)) result }
{
    let (tests, others) = split_piece(Separator::Arrow, false, fragments);
    match others.split_first() {
        None => PieceKind::Item,
        Some((_, behind)) => {
            let (item, others) = split_piece(Separator::Arrow, false, behind);
            if others.is_empty() {
                PieceKind::Arm { tests, item }
            } else {
                PieceKind::Absent
            }
        }
    }
}

/// What stands between two semicolons.
pub fn kind_of(fragments: &[Fragment]) -> PieceKind<'_>
    ensures kind { seen_kind result ≡ spec.kind_of (items_of (seen_fragments fragments.now)) }
    ensures nested { IsKindWithin (nesting (seen_fragments fragments.now)) result }
{
    match fragments.split_first() {
        None => PieceKind::Item,
        Some((first, rest)) => {
            if is_remains(first) {
                PieceKind::Otherwise(without_arrow(rest))
            } else {
                kind_of_arrows(fragments)
            }
        }
    }
}
