//! What stands behind `#key`.

ghost use Rattle.std.specs.Prelude.{◌≡◌, false, List, option_and_then};
ghost use Rattle.dy_tree.specs.Fragments.{SeenFragment, seen_fragments};
ghost use Rattle.dy_rules.specs.Arguments.{is_comma_fragment};
ghost use Rattle.dy_rules.specs.Cutting.{cut};
ghost use Rattle.dy_rules.specs.Fragments.{items_of};
ghost use Rattle.dy_rules.specs.Signatures.{bare_of};
ghost use Rattle.dy_read_shapes.specs.ReadKeys.{keys_pieces, keys_behind_mark, shape_read};

use dy_read_parts::separator::Separator;
use dy_read_types::division::divide;
use dy_read_words::part_word::is_all_keys;
use dy_tree::Fragment;

/// What stands behind `#key`.
#[derive(Clone, Copy, Debug)]
pub enum KeysShape {
    /// No key, and `#all-keys` or not.
    Bare(bool),
    /// No keys.
    Wrong,
    One,
    /// Parts with commas between them, of which the last may be `#all-keys`.
    Several,
}

fn bare_before(fragments: &[Fragment]) -> KeysShape
    ensures { (all : List SeenFragment)
        → option_and_then bare_of
        (keys_pieces (cut is_comma_fragment false (items_of (seen_fragments fragments.now))))
        ≡ shape_read result all }
{
    match divide(Separator::Comma, fragments) {
        Some(_) => KeysShape::Wrong,
        None => {
            if is_all_keys(fragments) {
                KeysShape::Bare(true)
            } else {
                KeysShape::Wrong
            }
        }
    }
}

/// What the fragments behind `#key` are.
pub fn keys_shape(fragments: &[Fragment]) -> KeysShape
    ensures { keys_behind_mark
        (cut is_comma_fragment false (items_of (seen_fragments fragments.now)))
        ≡ shape_read result (seen_fragments fragments.now) }
{
    match divide(Separator::Comma, fragments) {
        Some(division) => {
            if division.piece.is_empty() {
                bare_before(division.behind)
            } else {
                KeysShape::Several
            }
        }
        None => {
            if fragments.is_empty() {
                KeysShape::Bare(false)
            } else {
                KeysShape::One
            }
        }
    }
}
