//! What stands on both sides of the first `=`.

ghost use Rattle.std.specs.Prelude.{◌≡◌, ◌<◌, ◌≤◌, length, IfSome, option_map};
ghost use Rattle.dy_tree.specs.Fragments.{seen_fragments};
ghost use Rattle.dy_rules.specs.Bodies.{is_equals_at};
ghost use Rattle.dy_rules.specs.Cutting.{first_cut};
ghost use Rattle.dy_rules.specs.Fragments.{items_of};
ghost use Rattle.dy_read_parts.specs.Nesting.{nesting};
ghost use Rattle.dy_read_parts.specs.Sides.{place_of, seen_sides};

use crate::mark::is_equals_at;
use dy_tree::Fragment;

/// What stands on both sides of a separator.
#[derive(Clone, Copy, Debug)]
pub struct Sides<'a> {
    pub before: &'a [Fragment],
    pub after: &'a [Fragment],
}

/// Where the first `=` stands.
fn place_of_equals(fragments: &[Fragment]) -> Option<usize>
    ensures place { result ≡ place_of is_equals_at (seen_fragments fragments.now) }
    ensures within { IfSome result (λ at. at < length fragments.now) }
{
    for at in 0..fragments.len() {
        if is_equals_at(&fragments[at]) {
            return Some(at);
        }
    }
    None
}

/// What stands on both sides of the first `=`.
#[tactic(auto, using(crate::proofs::FirstCuts::sides_found))]
pub fn sides_of_equals(fragments: &[Fragment]) -> Option<Sides<'_>>
    ensures sides { option_map seen_sides result
        ≡ first_cut is_equals_at (items_of (seen_fragments fragments.now)) }
    ensures before { IfSome result
        (λ sides. nesting (seen_fragments sides.before.now) ≤ nesting
        (seen_fragments fragments.now)) }
    ensures after { IfSome result
        (λ sides. nesting (seen_fragments sides.after.now) ≤ nesting
        (seen_fragments fragments.now)) }
{
    match place_of_equals(fragments) {
        Some(at) => Some(Sides {
            before: &fragments[..at],
            after: &fragments[at + 1..],
        }),
        None => None,
    }
}
