//! Fragments without the mark at one end of them.

ghost use Rattle.std.specs.Prelude.{◌≡◌, ◌≤◌};
ghost use Rattle.dy_tree.specs.Fragments.{seen_fragments};
ghost use Rattle.dy_rules.specs.Choices.{without_arrow};
ghost use Rattle.dy_rules.specs.Cutting.{without_end};
ghost use Rattle.dy_rules.specs.Fragments.{items_of};
ghost use Rattle.dy_rules.specs.Signatures.{without_front};
ghost use Rattle.dy_read_parts.specs.Nesting.{nesting};

use crate::separator::{Separator, separates};
use dy_tree::Fragment;

/// Without a semicolon at the end.
pub fn without_end(fragments: &[Fragment]) -> &[Fragment]
    ensures items { items_of (seen_fragments result.now)
        ≡ without_end (items_of (seen_fragments fragments.now)) }
    ensures nested { nesting (seen_fragments result.now) ≤ nesting (seen_fragments fragments.now) }
{
    match fragments.split_last() {
        Some((last, rest)) if separates(Separator::Semicolon, last) => rest,
        _ => fragments,
    }
}

/// Without a semicolon at the front.
pub fn without_front(fragments: &[Fragment]) -> &[Fragment]
    ensures items { items_of (seen_fragments result.now)
        ≡ without_front (items_of (seen_fragments fragments.now)) }
    ensures nested { nesting (seen_fragments result.now) ≤ nesting (seen_fragments fragments.now) }
{
    match fragments.split_first() {
        Some((first, rest)) if separates(Separator::Semicolon, first) => rest,
        _ => fragments,
    }
}

/// Without an arrow at the front.
pub fn without_arrow(fragments: &[Fragment]) -> &[Fragment]
    ensures items { items_of (seen_fragments result.now)
        ≡ without_arrow (items_of (seen_fragments fragments.now)) }
    ensures nested { nesting (seen_fragments result.now) ≤ nesting (seen_fragments fragments.now) }
{
    match fragments.split_first() {
        Some((first, rest)) if separates(Separator::Arrow, first) => rest,
        _ => fragments,
    }
}
