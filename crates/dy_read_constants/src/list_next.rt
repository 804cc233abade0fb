//! What comes next in a list of constants.

ghost use Rattle.std.specs.Prelude.{◌≡◌, ◌≤◌, length};
ghost use Rattle.dy_tree.specs.Fragments.{seen_fragments};
ghost use Rattle.dy_read_parts.specs.Nesting.{nesting};
ghost use Rattle.dy_read_constants.specs.ConstantLists as spec;

use dy_read_parts::part::{Part, part_of};
use dy_read_words::role::role_of;
use dy_tree::{Fragment, Role};

/// What comes next in a list.
#[derive(Clone, Copy, Debug)]
pub enum ListNext<'a> {
    /// The list ends.
    End,
    /// An item begins here.
    Item(&'a [Fragment]),
    /// What stands behind the dot begins here.
    Tail(&'a [Fragment]),
    /// Something that no list has there.
    Other,
}

/// What comes first in a list.
pub fn first_item<'a>(fragments: &'a [Fragment]) -> ListNext<'a>
    ensures next { spec.seen_next result ≡ spec.first_item (seen_fragments fragments.now) }
    ensures nested { spec.IsNextWithin (nesting (seen_fragments fragments.now)) result }
{
    if fragments.is_empty() {
        ListNext::End
    } else {
        ListNext::Item(fragments)
    }
}

/// What comes behind an item.
pub fn behind_item<'a>(rest: &'a [Fragment]) -> ListNext<'a>
    ensures next { spec.seen_next result ≡ spec.behind_item (seen_fragments rest.now) }
    ensures nested { spec.IsNextWithin (nesting (seen_fragments rest.now)) result }
    ensures left { spec.items_left result ≤ length rest.now }
{
    match rest.split_first() {
        None => ListNext::End,
        Some((first, others)) => match part_of(first) {
            Part::Group { .. } => ListNext::Other,
            Part::One(token) => match role_of(token) {
                Role::Comma => ListNext::Item(others),
                Role::Dot => ListNext::Tail(others),
                _ => ListNext::Other,
            },
        },
    }
}
