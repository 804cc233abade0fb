//! Which adjectives suit what is defined. They stand in any order.

ghost use Rattle.std.specs.Prelude.{◌≡◌};
ghost use Rattle.dy_rules.specs.Definitions as spec;
ghost use Rattle.dy_read_words.specs.Words.{has_both, is_adjective};

use crate::define_word::define_word_of;
use dy_tree::{DefineWord, Token};

fn is_class_adjective(word: DefineWord) -> bool
    ensures { result ≡ spec.is_class_adjective word }
{
    match word {
        DefineWord::Open | DefineWord::Sealed => true,
        DefineWord::Abstract | DefineWord::Concrete => true,
        DefineWord::Primary | DefineWord::Free => true,
        _ => false,
    }
}

fn is_open(word: DefineWord) -> bool
    ensures { result ≡ spec.is_open word }
{
    matches!(word, DefineWord::Open)
}

fn is_sealed(word: DefineWord) -> bool
    ensures { result ≡ spec.is_sealed word }
{
    matches!(word, DefineWord::Sealed)
}

fn is_inlining(word: DefineWord) -> bool
    ensures { result ≡ spec.is_inlining word }
{
    matches!(word, DefineWord::Inlining)
}

/// Whether a word is this adjective of a class.
fn is_adjective(wanted: DefineWord, word: DefineWord) -> bool
    ensures { result ≡ is_adjective wanted word }
{
    match wanted {
        DefineWord::Open => is_open(word),
        DefineWord::Sealed => is_sealed(word),
        DefineWord::Abstract => matches!(word, DefineWord::Abstract),
        DefineWord::Concrete => matches!(word, DefineWord::Concrete),
        DefineWord::Primary => matches!(word, DefineWord::Primary),
        DefineWord::Free => matches!(word, DefineWord::Free),
        _ => false,
    }
}

/// Whether one of the adjectives is this one.
fn has(wanted: DefineWord, adjectives: &[Token]) -> bool
    ensures { result ≡ spec.has (is_adjective wanted) adjectives.now }
{
    for adjective in adjectives {
        if is_adjective(wanted, define_word_of(adjective)) {
            return true;
        }
    }
    false
}

/// Whether both of two adjectives that say the opposite are there.
fn has_both(first: DefineWord, second: DefineWord, adjectives: &[Token]) -> bool
    ensures { result ≡ has_both first second adjectives.now }
{
    has(first, adjectives) && has(second, adjectives)
}

fn are_class_adjectives(adjectives: &[Token]) -> bool
    ensures { result ≡ spec.all_are spec.is_class_adjective adjectives.now }
{
    for adjective in adjectives {
        if !is_class_adjective(define_word_of(adjective)) {
            return false;
        }
    }
    true
}

/// Whether these suit a class. They may be repeated.
pub fn suit_class(adjectives: &[Token]) -> bool
    ensures { result ≡ spec.suit_class adjectives.now }
{
    are_class_adjectives(adjectives)
        && !has_both(DefineWord::Open, DefineWord::Sealed, adjectives)
        && !has_both(DefineWord::Abstract, DefineWord::Concrete, adjectives)
        && !has_both(DefineWord::Primary, DefineWord::Free, adjectives)
}

/// Whether these suit a function.
pub fn suit_function(adjectives: &[Token]) -> bool
    ensures { result ≡ spec.suit_function adjectives.now }
{
    for adjective in adjectives {
        if !is_inlining(define_word_of(adjective)) {
            return false;
        }
    }
    true
}

/// Whether these suit a method: `sealed` stands once at most.
pub fn suit_method(adjectives: &[Token]) -> bool
    ensures { result ≡ spec.suit_method adjectives.now }
{
    for at in 0..adjectives.len() {
        let word = define_word_of(&adjectives[at]);
        if !is_inlining(word) {
            return is_sealed(word) && suit_function(&adjectives[at + 1..]);
        }
    }
    true
}

/// Whether these suit a generic function: `open` or `sealed`, once at most.
pub fn suit_generic(adjectives: &[Token]) -> bool
    ensures { result ≡ spec.suit_generic adjectives.now }
{
    match adjectives.split_first() {
        None => true,
        Some((first, rest)) => {
            let word = define_word_of(first);
            rest.is_empty() && (is_open(word) || is_sealed(word))
        }
    }
}

/// Whether these suit a domain: `sealed` alone.
pub fn suit_domain(adjectives: &[Token]) -> bool
    ensures { result ≡ spec.suit_domain adjectives.now }
{
    match adjectives.split_first() {
        None => false,
        Some((first, rest)) => rest.is_empty() && is_sealed(define_word_of(first)),
    }
}

/// Whether these suit a constant or a variable: none do.
pub fn suit_binding(adjectives: &[Token]) -> bool
    ensures { result ≡ spec.suit_binding adjectives.now }
{
    adjectives.is_empty()
}
