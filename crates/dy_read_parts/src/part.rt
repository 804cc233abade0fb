//! A fragment as the reader asks for it.

ghost use Rattle.std.specs.Prelude.{◌≡◌};
ghost use Rattle.dy_tree.specs.Fragments.{seen_fragment};
ghost use Rattle.dy_read_parts.specs.FragmentParts as spec;

use dy_read_words::bracket::bracket_of;
use dy_tree::{Bracket, Fragment, Token};

/// A token, or what stands between brackets of one sort.
#[derive(Clone, Copy, Debug)]
pub enum Part<'a> {
    One(&'a Token),
    Group {
        bracket: Bracket,
        opener: &'a Token,
        inner: &'a [Fragment],
    },
}

/// What a fragment is.
pub fn part_of<'a>(fragment: &'a Fragment) -> Part<'a>
    ensures part { spec.seen_part result ≡ spec.part_of (seen_fragment fragment.now) }
    ensures shallower { spec.IsShallower result (seen_fragment fragment.now) }
{
    match fragment {
        Fragment::One(token) => Part::One(token),
        Fragment::Group {
            opener,
            inner,
            closer,
        } => Part::Group {
            bracket: bracket_of(opener, closer),
            opener,
            inner: inner.as_slice(),
        },
    }
}
