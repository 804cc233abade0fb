//! Tokens, grouped.

use crate::token::Token;

/// A token, or what stands between an opener and its closer.
#[derive(Debug, Drop)]
pub enum Fragment {
    One(Token),
    Group {
        opener: Token,
        inner: Vec<Fragment>,
        closer: Token,
    },
}

impl Fragment {
    ghost use Rattle.std.specs.Prelude.{◌≡◌};
    ghost use Rattle.dy_tree.specs.Fragments.{group, pack, seen_fragment, seen_fragments};

    /// What stands between an opener and its closer, as one fragment. No memory is taken.
    pub fn group(opener: Token, inner: Vec<Fragment>, closer: Token) -> Fragment
        ensures { seen_fragment result ≡ group opener (pack (seen_fragments inner.items)) closer }
    {
        Fragment::Group {
            opener,
            inner,
            closer,
        }
    }
}
