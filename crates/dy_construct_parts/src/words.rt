//! What operators and adjectives are, by their text.

ghost use Rattle.std.specs.Prelude.{◌≡◌};
ghost use Rattle.dy_construct_parts.specs.Table.{absent, first_absent};
ghost use Rattle.dy_construct_parts.specs.Words as words;

use crate::construct::{Construct, absent, where_true};
use dy_read_words::define_word::define_word_of;
use dy_read_words::slot_word::slot_word_of;
use dy_tree::{DefineWord, Guard, SlotWord, Token};

fn comparison(operator: &Token) -> Construct
    ensures { result ≡ words.comparison operator.now }
{
    if operator.is_spelled(b"=") {
        Construct::Equal
    } else if operator.is_spelled(b"==") {
        Construct::Identical
    } else if operator.is_spelled(b"<") {
        Construct::Less
    } else if operator.is_spelled(b">") {
        Construct::Greater
    } else if operator.is_spelled(b"<=") {
        Construct::AtMost
    } else if operator.is_spelled(b">=") {
        Construct::AtLeast
    } else if operator.is_spelled(b"~=") {
        Construct::Unequal
    } else if operator.is_spelled(b"~==") {
        Construct::NotIdentical
    } else {
        Construct::OtherOperator
    }
}

/// An operator of two operands.
pub fn binary(operator: &Token) -> Construct
    ensures { result ≡ words.binary operator.now }
{
    if operator.is_spelled(b"+") {
        Construct::Addition
    } else if operator.is_spelled(b"-") {
        Construct::Subtraction
    } else if operator.is_spelled(b"*") {
        Construct::Multiplication
    } else if operator.is_spelled(b"/") {
        Construct::Division
    } else if operator.is_spelled(b"^") {
        Construct::Power
    } else if operator.is_spelled(b"&") {
        Construct::And
    } else if operator.is_spelled(b"|") {
        Construct::Or
    } else {
        comparison(operator)
    }
}

pub fn is_comparison(construct: Construct) -> bool
    ensures { result ≡ words.is_comparison construct }
{
    matches!(
        construct,
        Construct::Equal
            | Construct::Identical
            | Construct::Less
            | Construct::Greater
            | Construct::AtMost
            | Construct::AtLeast
            | Construct::Unequal
            | Construct::NotIdentical
    )
}

/// An operator of one operand.
pub fn unary(operator: &Token) -> Construct
    ensures { result ≡ words.unary operator.now }
{
    if operator.is_spelled(b"-") {
        Construct::Negation
    } else if operator.is_spelled(b"~") {
        Construct::Not
    } else {
        Construct::OtherOperator
    }
}

/// The word of a statement of a test and a body.
pub fn guarded(guard: Guard) -> Construct
    ensures { result ≡ words.guarded guard }
{
    match guard {
        Guard::Unless => Construct::Unless,
        Guard::While => Construct::While,
        Guard::Until => Construct::Until,
    }
}

/// `next-method`, if the name is it.
pub fn next_method(token: &Token) -> Option<Construct>
    ensures { result ≡ first_absent (words.next_method token.now) }
{
    where_true(Construct::NextMethod, token.is_spelled(b"next-method"))
}

/// An adjective of a definition.
pub fn adjective(word: &Token) -> Option<Construct>
    ensures { result ≡ absent (words.adjective word.now) }
{
    match define_word_of(word) {
        DefineWord::Open => absent(Construct::Open),
        DefineWord::Sealed => absent(Construct::Sealed),
        DefineWord::Abstract => absent(Construct::Abstract),
        DefineWord::Concrete => absent(Construct::Concrete),
        DefineWord::Primary => absent(Construct::Primary),
        DefineWord::Free => absent(Construct::Free),
        DefineWord::Inlining => absent(Construct::Inlining),
        DefineWord::Class
        | DefineWord::Method
        | DefineWord::Function
        | DefineWord::Generic
        | DefineWord::Constant
        | DefineWord::Variable
        | DefineWord::Domain
        | DefineWord::Absent => absent(Construct::OtherAdjective),
    }
}

/// An adjective of a slot.
pub fn slot_adjective(word: &Token) -> Option<Construct>
    ensures { result ≡ absent (words.slot_adjective word.now) }
{
    match slot_word_of(word) {
        SlotWord::Constant => absent(Construct::ConstantSlot),
        SlotWord::Allocation => absent(Construct::SlotAllocation),
        SlotWord::Slot | SlotWord::Absent => absent(Construct::OtherAdjective),
    }
}
