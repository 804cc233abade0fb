//! The default value of a variable.

ghost use Rattle.std.specs.Prelude.{◌≡◌, ◌≤◌};
ghost use Rattle.dy_tree.specs.Fragments.{seen_fragments};
ghost use Rattle.dy_rules.specs.Fragments.{items_of};
ghost use Rattle.dy_rules.specs.Signatures.{initial_items};
ghost use Rattle.dy_read_parts.specs.Nesting.{nesting};
ghost use Rattle.dy_read_shapes.specs.ReadKeys.{initial_read, IsInitialWithin};

use dy_read_parts::mark::is_equals_at;
use dy_tree::Fragment;

/// What stands behind a variable that may have a default value.
#[derive(Clone, Copy, Debug)]
pub enum Initial<'a> {
    /// Nothing.
    Absent,
    /// `=`, and what stands behind it.
    Value(&'a [Fragment]),
    /// No `=` where one must stand.
    Wrong,
}

/// What the fragments behind a variable are.
pub fn initial_in(fragments: &[Fragment]) -> Initial<'_>
    ensures initial { initial_items (items_of (seen_fragments fragments.now))
        ≡ initial_read result }
    ensures nested { IsInitialWithin (nesting (seen_fragments fragments.now)) result }
{
    match fragments.split_first() {
        Some((sign, value)) => {
            if is_equals_at(sign) {
                Initial::Value(value)
            } else {
                Initial::Wrong
            }
        }
        None => Initial::Absent,
    }
}
