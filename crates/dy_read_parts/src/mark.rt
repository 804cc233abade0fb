//! What one fragment is. A group is none of these.

ghost use Rattle.std.specs.Prelude.{◌≡◌};
ghost use Rattle.dy_tree.specs.Fragments.{seen_fragment};
ghost use Rattle.dy_rules.specs.Bodies as bodies;
ghost use Rattle.dy_rules.specs.Choices as choices;
ghost use Rattle.dy_rules.specs.Cutting as cutting;
ghost use Rattle.dy_rules.specs.Loops as loops;
ghost use Rattle.dy_rules.specs.Signatures as signatures;
ghost use Rattle.dy_rules.specs.TypeReading as types;

use dy_read_words::role::role_of;
use dy_read_words::sign::{is_equals, is_identity};
use dy_read_words::splitter::splitter_of;
use dy_tree::{Fragment, Role, Splitter};

/// Whether a fragment is `=`.
pub fn is_equals_at(fragment: &Fragment) -> bool
    ensures { result ≡ bodies.is_equals_at (seen_fragment fragment.now) }
{
    matches!(fragment, Fragment::One(token) if is_equals(token))
}

/// Whether a fragment is `==`.
pub fn is_identity_at(fragment: &Fragment) -> bool
    ensures { result ≡ signatures.is_identity_at (seen_fragment fragment.now) }
{
    matches!(fragment, Fragment::One(token) if is_identity(token))
}

/// Whether a fragment is `::`.
pub fn is_colons(fragment: &Fragment) -> bool
    ensures { result ≡ types.is_colons (seen_fragment fragment.now) }
{
    matches!(fragment, Fragment::One(token) if matches!(role_of(token), Role::Colons))
}

/// Whether a fragment is `handler`.
pub fn is_handler(fragment: &Fragment) -> bool
    ensures { result ≡ bodies.is_handler (seen_fragment fragment.now) }
{
    matches!(fragment, Fragment::One(token) if matches!(role_of(token), Role::Handlers))
}

/// Whether a fragment is `otherwise`.
pub fn is_remains(fragment: &Fragment) -> bool
    ensures { result ≡ choices.is_remains (seen_fragment fragment.now) }
{
    matches!(fragment, Fragment::One(token) if matches!(role_of(token), Role::Remains))
}

/// The word that a fragment is.
pub fn word_of(fragment: &Fragment) -> Splitter
    ensures { result ≡ cutting.word_of (seen_fragment fragment.now) }
{
    match fragment {
        Fragment::One(token) => splitter_of(token),
        Fragment::Group { .. } => Splitter::Absent,
    }
}

/// Whether a fragment is `in`.
pub fn is_in(fragment: &Fragment) -> bool
    ensures { result ≡ loops.is_in (seen_fragment fragment.now) }
{
    matches!(word_of(fragment), Splitter::In)
}
