//! Which literals are the same.

ghost use Rattle.std.specs.Prelude.{◌≡◌, ◌↔◌, IsTrue};

use dy_base::{Boxed, Items};
use dy_term::Literal;

/// Whether two literals are the same.
#[cycle(same)]
pub(crate) fn is_same(literal: &Literal, other: &Literal) -> bool
    ensures { IsTrue result ↔ (literal.now ≡ other.now) }
{
    match literal {
        Literal::Int(value) => matches!(other, Literal::Int(same) if same == value),
        Literal::Char(value) => matches!(other, Literal::Char(same) if same == value),
        Literal::Bool(value) => matches!(other, Literal::Bool(same) if same == value),
        Literal::Symbol(name) =>
            matches!(other, Literal::Symbol(same) if same.bytes() == name.bytes()),
        Literal::Nil => matches!(other, Literal::Nil),
        Literal::Str(text) => matches!(other, Literal::Str(same) if same.bytes() == text.bytes()),
        Literal::List(items, last) => match other {
            Literal::List(others, end) => are_same(items, others) && is_same_end(last, end),
            _ => false,
        },
        Literal::Vector(items) => match other {
            Literal::Vector(others) => are_same(items, others),
            _ => false,
        },
    }
}

#[cycle(same)]
fn are_same(items: &Items<Literal>, others: &Items<Literal>) -> bool
    ensures { IsTrue result ↔ (items.now ≡ others.now) }
{
    if items.len() != others.len() {
        return false;
    }
    for (item, other) in items.as_slice().iter().zip(others.as_slice()) {
        if !is_same(item, other) {
            return false;
        }
    }
    true
}

#[cycle(same)]
fn is_same_end(last: &Option<Boxed<Literal>>, end: &Option<Boxed<Literal>>) -> bool
    ensures { IsTrue result ↔ (last.now ≡ end.now) }
{
    match last {
        None => end.is_none(),
        Some(literal) => match end {
            None => false,
            Some(other) => is_same(literal, other),
        },
    }
}

/// Whether a literal is this truth value.
pub(crate) fn is_truth(literal: &Literal, value: bool) -> bool
    ensures { IsTrue result ↔ (literal.now ≡ Literal.Bool value) }
{
    matches!(literal, Literal::Bool(same) if *same == value)
}

/// Whether a literal is this number.
pub(crate) fn is_number(literal: &Literal, value: i64) -> bool
    ensures { IsTrue result ↔ (literal.now ≡ Literal.Int value) }
{
    matches!(literal, Literal::Int(same) if *same == value)
}
