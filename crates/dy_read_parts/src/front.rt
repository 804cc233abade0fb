//! Brackets in front, and what stands behind them.

ghost use Rattle.std.specs.Prelude.{◌≡◌, ◌<◌, ◌≤◌, ◌∷◌, IfSome, option_map};
ghost use Rattle.dy_tree.specs.Fragments.{seen_fragment, seen_fragments};
ghost use Rattle.dy_tree.specs.declared.brackets.Bracket.TheVariants as brackets;
ghost use Rattle.dy_rules.specs.Cutting.{headed};
ghost use Rattle.dy_rules.specs.Fragments.{items_of};
ghost use Rattle.dy_rules.specs.Roles.{bracket_of};
ghost use Rattle.dy_read_parts.specs.Front.{seen_front};
ghost use Rattle.dy_read_parts.specs.Nesting.{group_nesting, nesting};

use dy_read_words::bracket::bracket_of;
use dy_tree::{Bracket, Fragment, Token};

/// Round brackets, and what stands behind them.
#[derive(Clone, Copy, Debug)]
pub struct Front<'a> {
    pub opener: &'a Token,
    /// What stands between the brackets.
    pub inner: &'a [Fragment],
    pub closer: &'a Token,
    pub rest: &'a [Fragment],
}

/// Round brackets as the first fragment, and what stands behind it.
fn round_at<'a>(first: &'a Fragment, rest: &'a [Fragment]) -> Option<Front<'a>>
    ensures front { option_map seen_front result
        ≡ headed (items_of (seen_fragment first.now ∷ seen_fragments rest.now)) }
    ensures is_round { IfSome result
        (λ front. bracket_of front.opener.now front.closer.now ≡ brackets.Round) }
    ensures nested { IfSome result
        (λ front. nesting (seen_fragments front.inner.now) < group_nesting
        (seen_fragment first.now)) }
    ensures behind { IfSome result
        (λ front. nesting (seen_fragments front.rest.now) ≤ nesting (seen_fragments rest.now)) }
{
    match first {
        Fragment::Group {
            opener,
            inner,
            closer,
        } if matches!(bracket_of(opener, closer), Bracket::Round) => Some(Front {
            opener,
            inner: inner.as_slice(),
            closer,
            rest,
        }),
        _ => None,
    }
}

/// Round brackets in front.
pub fn headed(fragments: &[Fragment]) -> Option<Front<'_>>
    ensures front { option_map seen_front result
        ≡ headed (items_of (seen_fragments fragments.now)) }
    ensures is_round { IfSome result
        (λ front. bracket_of front.opener.now front.closer.now ≡ brackets.Round) }
    ensures nested { IfSome result
        (λ front. nesting (seen_fragments front.inner.now) < nesting
        (seen_fragments fragments.now)) }
    ensures behind { IfSome result
        (λ front. nesting (seen_fragments front.rest.now) ≤ nesting
        (seen_fragments fragments.now)) }
{
    match fragments.split_first() {
        Some((first, rest)) => round_at(first, rest),
        None => None,
    }
}
