//! The words that say what is defined, and the adjectives before them.

ghost use Rattle.std.specs.Prelude.{◌≡◌};
ghost use Rattle.dy_rules.specs.Definitions as spec;
ghost use Rattle.dy_rules.specs.Roles.{is_among};

use crate::role::role_of;
use dy_tree::{DefineWord, Role, Token, TokenKind};

fn is_inlining_word(token: &Token) -> bool
    ensures { result ≡ is_among spec.inlinings token.now }
{
    token.is_spelled(b"inline")
        || token.is_spelled(b"not-inline")
        || token.is_spelled(b"may-inline")
        || token.is_spelled(b"default-inline")
        || token.is_spelled(b"inline-only")
}

fn spelled_define_word(token: &Token) -> DefineWord
    ensures { result ≡ spec.spelled_define_word token.now }
{
    if token.is_spelled(b"open") {
        DefineWord::Open
    } else if token.is_spelled(b"sealed") {
        DefineWord::Sealed
    } else if token.is_spelled(b"abstract") {
        DefineWord::Abstract
    } else if token.is_spelled(b"concrete") {
        DefineWord::Concrete
    } else if token.is_spelled(b"primary") {
        DefineWord::Primary
    } else if token.is_spelled(b"free") {
        DefineWord::Free
    } else if is_inlining_word(token) {
        DefineWord::Inlining
    } else if token.is_spelled(b"class") {
        DefineWord::Class
    } else if token.is_spelled(b"method") {
        DefineWord::Method
    } else if token.is_spelled(b"function") {
        DefineWord::Function
    } else if token.is_spelled(b"generic") {
        DefineWord::Generic
    } else if token.is_spelled(b"constant") {
        DefineWord::Constant
    } else if token.is_spelled(b"variable") {
        DefineWord::Variable
    } else if token.is_spelled(b"domain") {
        DefineWord::Domain
    } else {
        DefineWord::Absent
    }
}

/// Which of these words a token is. An escaped name is none.
pub fn define_word_of(token: &Token) -> DefineWord
    ensures { result ≡ spec.define_word_of token.now }
{
    match role_of(token) {
        Role::Named => match token.kind {
            TokenKind::Name => spelled_define_word(token),
            _ => DefineWord::Absent,
        },
        _ => DefineWord::Absent,
    }
}

fn is_definition(word: DefineWord) -> bool
    ensures { result ≡ spec.is_definition word }
{
    match word {
        DefineWord::Class | DefineWord::Method | DefineWord::Function => true,
        DefineWord::Generic | DefineWord::Constant => true,
        DefineWord::Variable | DefineWord::Domain => true,
        _ => false,
    }
}

/// Whether a token says what is defined.
pub fn is_definition_word(token: &Token) -> bool
    ensures { result ≡ spec.is_definition_word token.now }
{
    is_definition(define_word_of(token))
}
