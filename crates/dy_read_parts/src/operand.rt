//! What can only begin another operand behind an operand.

ghost use Rattle.std.specs.Prelude.{◌≡◌};
ghost use Rattle.dy_tree.specs.Fragments.{seen_fragment};
ghost use Rattle.dy_rules.specs.Arguments as spec;

use dy_read_words::bracket::bracket_of;
use dy_read_words::role::role_of;
use dy_tree::{Bracket, Fragment, Role};

/// Whether such a token behind an operand can only begin another one.
pub fn begins_operand(role: Role) -> bool
    ensures { result ≡ spec.begins_operand role }
{
    match role {
        Role::Integer | Role::Character | Role::Text => true,
        Role::Boolean | Role::Symbol | Role::Named | Role::Tilde => true,
        _ => false,
    }
}

fn group_begins_operand(bracket: Bracket) -> bool
    ensures { result ≡ spec.group_begins_operand bracket }
{
    match bracket {
        Bracket::Hidden | Bracket::SharpRound | Bracket::SharpSquare => true,
        Bracket::Statement(_) | Bracket::Special => true,
        Bracket::Round | Bracket::Square => false,
    }
}

/// Whether a fragment behind an operand can only begin another one. Round brackets would be a call,
/// and a minus a difference.
pub fn only_begins_operand(fragment: &Fragment) -> bool
    ensures { result ≡ spec.only_begins_operand (seen_fragment fragment.now) }
{
    match fragment {
        Fragment::One(token) => begins_operand(role_of(token)),
        Fragment::Group {
            opener,
            inner: _,
            closer,
        } => group_begins_operand(bracket_of(opener, closer)),
    }
}
