//! The words of slots.

ghost use Rattle.std.specs.Prelude.{◌≡◌, [], ◌∷◌, codes};
ghost use Rattle.dy_rules.specs.Definitions as spec;
ghost use Rattle.dy_rules.specs.Roles.{is_among};

use crate::role::role_of;
use dy_tree::{Role, SlotWord, Token, TokenKind};

fn is_allocation_word(token: &Token) -> bool
    ensures { result ≡ is_among
        (codes "instance" ∷ codes "class" ∷ codes "each-subclass" ∷ codes "virtual" ∷ [])
        token.now }
{
    token.is_spelled(b"instance")
        || token.is_spelled(b"class")
        || token.is_spelled(b"each-subclass")
        || token.is_spelled(b"virtual")
}

fn spelled_slot_word(token: &Token) -> SlotWord
    ensures { result ≡ spec.spelled_slot_word token.now }
{
    if token.is_spelled(b"constant") {
        SlotWord::Constant
    } else if is_allocation_word(token) {
        SlotWord::Allocation
    } else if token.is_spelled(b"slot") {
        SlotWord::Slot
    } else {
        SlotWord::Absent
    }
}

/// Which of these words a token is. An escaped name is none.
pub fn slot_word_of(token: &Token) -> SlotWord
    ensures { result ≡ spec.slot_word_of token.now }
{
    match role_of(token) {
        Role::Named => match token.kind {
            TokenKind::Name => spelled_slot_word(token),
            _ => SlotWord::Absent,
        },
        _ => SlotWord::Absent,
    }
}

/// Whether a token is the word `slot`.
pub fn is_slot_word(token: &Token) -> bool
    ensures { result ≡ spec.is_slot_word token.now }
{
    matches!(slot_word_of(token), SlotWord::Slot)
}

fn is_constant_slot(word: SlotWord) -> bool
    ensures { result ≡ spec.is_constant_slot word }
{
    matches!(word, SlotWord::Constant)
}

fn is_allocation(word: SlotWord) -> bool
    ensures { result ≡ spec.is_allocation word }
{
    matches!(word, SlotWord::Allocation)
}

/// Whether these adjectives suit a slot: one allocation at most, and `constant` before it.
pub fn suit_slot(adjectives: &[Token]) -> bool
    ensures { result ≡ spec.suit_slot adjectives.now }
{
    match adjectives {
        [] => true,
        [first] => {
            let word = slot_word_of(first);
            is_constant_slot(word) || is_allocation(word)
        }
        [first, second] => {
            is_constant_slot(slot_word_of(first)) && is_allocation(slot_word_of(second))
        }
        _ => false,
    }
}
