//! Whether a symbol at the front of an argument is passed with the value behind it.

ghost use Rattle.std.specs.Prelude.{◌≡◌};
ghost use Rattle.std.specs.List.{list_any};
ghost use Rattle.dy_tree.specs.Fragments.{seen_fragment, seen_fragments};
ghost use Rattle.dy_rules.specs.Arguments as spec;

use crate::operand::{begins_operand, only_begins_operand};
use crate::separator::{Separator, separates};
use dy_read_words::bracket::bracket_of;
use dy_read_words::role::role_of;
use dy_tree::{Bracket, Fragment, Role};

fn is_symbol(role: Role) -> bool
    ensures { result ≡ spec.is_symbol role }
{
    matches!(role, Role::Symbol)
}

fn has_comma(fragments: &[Fragment]) -> bool
    ensures { result ≡ list_any spec.is_comma_fragment (seen_fragments fragments.now) }
{
    for fragment in fragments {
        if separates(Separator::Comma, fragment) {
            return true;
        }
    }
    false
}

/// Whether a symbol is there, and what can only be a value behind it.
fn symbol_and_value(first: &Fragment, rest: &[Fragment]) -> bool
    ensures { result ≡ spec.symbol_and_value (seen_fragment first.now) (seen_fragments rest.now) }
{
    match first {
        Fragment::One(token) => match rest.split_first() {
            Some((second, _)) => is_symbol(role_of(token)) && only_begins_operand(second),
            None => false,
        },
        Fragment::Group { .. } => false,
    }
}

/// Whether arguments are one expression.
fn is_single(fragments: &[Fragment]) -> bool
    ensures { result ≡ spec.is_single (seen_fragments fragments.now) }
{
    match fragments.split_first() {
        Some((first, rest)) => !has_comma(fragments) && !symbol_and_value(first, rest),
        None => false,
    }
}

fn group_begins_value(bracket: Bracket, inner: &[Fragment]) -> bool
    ensures { result ≡ spec.group_begins_value bracket (seen_fragments inner.now) }
{
    match bracket {
        Bracket::Round => is_single(inner),
        Bracket::Square => false,
        Bracket::Hidden | Bracket::SharpRound | Bracket::SharpSquare => true,
        Bracket::Statement(_) | Bracket::Special => true,
    }
}

pub fn role_begins_value(role: Role) -> bool
    ensures { result ≡ spec.role_begins_value role }
{
    matches!(role, Role::Minus) || begins_operand(role)
}

/// Whether an expression begins here, behind a symbol at the front of an argument.
pub fn begins_value(fragment: &Fragment) -> bool
    ensures { result ≡ spec.begins_value (seen_fragment fragment.now) }
{
    match fragment {
        Fragment::One(token) => role_begins_value(role_of(token)),
        Fragment::Group {
            opener,
            inner,
            closer,
        } => group_begins_value(bracket_of(opener, closer), inner.as_slice()),
    }
}
