//! A token that stands alone.

ghost use Rattle.std.specs.Prelude.{◌≡◌, option_map};
ghost use Rattle.dy_tree.specs.Fragments.{seen_fragment, seen_fragments};
ghost use Rattle.dy_read_words.specs.Alone as spec;

use dy_tree::{Fragment, Token};

/// The token that a fragment is.
pub fn token_of(fragment: &Fragment) -> Option<&Token>
    ensures { option_map (λ token. token.now) result ≡ spec.token_of (seen_fragment fragment.now) }
{
    match fragment {
        Fragment::One(token) => Some(token),
        Fragment::Group { .. } => None,
    }
}

/// The one token that the fragments are.
pub fn token_alone(fragments: &[Fragment]) -> Option<&Token>
    ensures { option_map (λ token. token.now) result
        ≡ spec.token_alone (seen_fragments fragments.now) }
{
    match fragments {
        [only] => token_of(only),
        _ => None,
    }
}
