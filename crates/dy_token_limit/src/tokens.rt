//! Tokens of fragments, which are taken from those that may still stand.

ghost use Rattle.dy_tree.specs.Fragments.{seen_fragment, seen_fragments};
ghost use Rattle.dy_token_limit.specs.Tokens.{tokens_in, tokens_of};
ghost use Rattle.dy_token_limit.specs.Limit.{Leaves};

use dy_tree::Fragment;

/// How many tokens may still stand behind a fragment, or `None` where it has more than may stand.
#[cycle(tokens)]
fn left_behind(fragment: &Fragment, most: u64) -> Option<u64>
    ensures { Leaves most (tokens_in (seen_fragment fragment.now)) result }
{
    match fragment {
        Fragment::One(_) => most.checked_sub(1),
        Fragment::Group { inner, .. } => match most.checked_sub(2) {
            Some(left) => left_behind_all(inner, left),
            None => None,
        },
    }
}

/// How many tokens may still stand behind fragments, or `None` where they have more than may stand.
#[cycle(tokens)]
pub(crate) fn left_behind_all(fragments: &[Fragment], most: u64) -> Option<u64>
    ensures { Leaves most (tokens_of (seen_fragments fragments.now)) result }
{
    let mut left = most;
    for fragment in fragments {
        match left_behind(fragment, left) {
            Some(rest) => left = rest,
            None => return None,
        }
    }
    Some(left)
}
