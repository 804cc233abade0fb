//! How an item of a body begins.

ghost use Rattle.std.specs.Prelude.{◌≡◌};
ghost use Rattle.dy_tree.specs.Fragments.{seen_fragment};
ghost use Rattle.dy_rules.specs.Bodies as spec;
ghost use Rattle.dy_read_parts.specs.ItemFront.{seen_item_front};

use dy_read_words::role::role_of;
use dy_tree::{Fragment, Role, Token};

/// How an item of a body begins.
#[derive(Clone, Copy, Debug)]
pub enum ItemFront<'a> {
    /// With `let`.
    Let(&'a Token),
    /// With `local`.
    Local(&'a Token),
    /// With anything else.
    Other,
}

/// How an item begins whose first fragment this is.
pub fn front_of_item(fragment: &Fragment) -> ItemFront<'_>
    ensures { seen_item_front result ≡ spec.front_of_item (seen_fragment fragment.now) }
{
    match fragment {
        Fragment::One(token) => match role_of(token) {
            Role::Lets => ItemFront::Let(token),
            Role::Locals => ItemFront::Local(token),
            _ => ItemFront::Other,
        },
        Fragment::Group { .. } => ItemFront::Other,
    }
}
