//! A name in front.

ghost use Rattle.std.specs.Prelude.{◌≡◌, ◌≤◌, ◌∷◌, IfSome, option_map};
ghost use Rattle.dy_tree.specs.Fragments.{seen_fragment, seen_fragments};
ghost use Rattle.dy_rules.specs.Fragments.{items_of};
ghost use Rattle.dy_rules.specs.Roles as rules;
ghost use Rattle.dy_read_forms.specs.ReadDefinitions as spec;

use dy_read_words::role::role_of;
use dy_tree::{Fragment, Role, Token};

/// A name, and what stands behind it.
#[derive(Clone, Copy, Debug)]
pub(crate) struct NameFront<'a> {
    pub(crate) name: &'a Token,
    pub(crate) rest: &'a [Fragment],
}

fn name_by<'a>(token: &'a Token, rest: &'a [Fragment]) -> Option<NameFront<'a>>
    ensures { option_map spec.seen_name result
        ≡ spec.name_by (rules.role_of token.now) token.now (items_of (seen_fragments rest.now)) }
{
    match role_of(token) {
        Role::Named => Some(NameFront { name: token, rest }),
        _ => None,
    }
}

/// The name in front of fragments.
pub(crate) fn name_front(fragments: &[Fragment]) -> Option<NameFront<'_>>
    ensures { option_map spec.seen_name result
        ≡ spec.name_front (items_of (seen_fragments fragments.now)) }
{
    match fragments.split_first() {
        Some((Fragment::One(token), rest)) => name_by(token, rest),
        _ => None,
    }
}
