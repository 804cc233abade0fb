//! What separates the parts of a list, a body or a statement.

ghost use Rattle.std.specs.Prelude.{◌≡◌};
ghost use Rattle.dy_tree.specs.Fragments.{seen_fragment};
ghost use Rattle.dy_rules.specs.Cutting.{is_let};
ghost use Rattle.dy_read_parts.specs.Separators.{separates, separates_at};

use dy_read_words::role::role_of;
use dy_read_words::splitter::splits;
use dy_tree::{Fragment, Role, Splitting, Token};

/// What parts are separated by.
#[derive(Clone, Copy, Debug, PartialEq, Eq)]
pub enum Separator {
    Comma,
    Semicolon,
    /// `=>`
    Arrow,
    /// The words that split a statement.
    Splitter(Splitting),
}

fn separates_at(separator: Separator, token: &Token) -> bool
    ensures { result ≡ separates_at separator token.now }
{
    match separator {
        Separator::Comma => matches!(role_of(token), Role::Comma),
        Separator::Semicolon => matches!(role_of(token), Role::Semicolon),
        Separator::Arrow => matches!(role_of(token), Role::Arrow),
        Separator::Splitter(words) => splits(words, token),
    }
}

/// Whether a fragment separates parts.
pub fn separates(separator: Separator, fragment: &Fragment) -> bool
    ensures { result ≡ separates separator (seen_fragment fragment.now) }
{
    match fragment {
        Fragment::One(token) => separates_at(separator, token),
        Fragment::Group { .. } => false,
    }
}

/// Whether a fragment is `let`.
pub fn is_let(fragment: &Fragment) -> bool
    ensures { result ≡ is_let (seen_fragment fragment.now) }
{
    match fragment {
        Fragment::One(token) => matches!(role_of(token), Role::Lets),
        Fragment::Group { .. } => false,
    }
}
