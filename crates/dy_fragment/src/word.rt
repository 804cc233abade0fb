//! Which tokens are words.

ghost use Rattle.std.specs.Prelude.{◌≡◌, drop, codes};
ghost use Rattle.dy_tree.specs.Spelling.{is_name_kind};
ghost use Rattle.dy_fragment.specs.Words as spec;

use dy_tree::{MacroKind, Token, TokenKind, Word, Words};

pub(crate) fn is_name(kind: TokenKind) -> bool
    ensures { result ≡ is_name_kind kind }
{
    matches!(kind, TokenKind::Name)
}

pub(crate) fn is_escaped(kind: TokenKind) -> bool
    ensures { result ≡ spec.is_escaped kind }
{
    matches!(kind, TokenKind::Escaped)
}

pub(crate) fn is_end(token: &Token) -> bool
    ensures { result ≡ spec.is_end token.now }
{
    token.is_word(b"end")
}

pub(crate) fn is_define(token: &Token) -> bool
    ensures { result ≡ spec.is_define token.now }
{
    token.is_word(b"define")
}

pub(crate) fn is_semicolon(token: &Token) -> bool
    ensures { result ≡ spec.is_semicolon token.now }
{
    token.is_sign(b";")
}

fn is_of(wanted: MacroKind, kind: MacroKind) -> bool
    ensures { result ≡ spec.is_of wanted kind }
{
    match wanted {
        MacroKind::Function => matches!(kind, MacroKind::Function),
        MacroKind::Statement => matches!(kind, MacroKind::Statement),
        MacroKind::Definition => matches!(kind, MacroKind::Definition),
    }
}

/// Whether a word is known in this module: a built-in word is known in each.
fn is_known_in(word: &Word, number: u32) -> bool
    ensures { result ≡ spec.is_known_in word.now number }
{
    match word.at {
        None => true,
        Some(_) => word.module == number,
    }
}

/// Whether a token is this word, of the kind that is wanted.
fn fits(kind: MacroKind, token: &Token, word: &Word) -> bool
    ensures { result ≡ spec.fits kind token.now word.now }
{
    is_of(kind, word.kind) && is_known_in(word, token.module) && token.is_spelled(word.name.bytes())
}

fn is_one_of(kind: MacroKind, token: &Token, words: &[Word]) -> bool
    ensures { result ≡ spec.is_one_of kind token.now words.now }
{
    for word in words {
        if fits(kind, token, word) {
            return true;
        }
    }
    false
}

/// Whether a token is a word of this kind that its module knows.
pub(crate) fn is_word(kind: MacroKind, words: &Words, token: &Token) -> bool
    ensures { result ≡ spec.is_word kind words.now token.now }
{
    is_name(token.kind) && is_one_of(kind, token, words.items.as_slice())
}

/// Whether a definition with this word ends without an `end`.
fn has_no_end(token: &Token) -> bool
    ensures { result ≡ spec.has_no_end token.now }
{
    token.is_spelled(b"constant")
        || token.is_spelled(b"domain")
        || token.is_spelled(b"generic")
        || token.is_spelled(b"variable")
}

/// What the definition word of a `define` is.
#[derive(Clone, Copy, Debug, PartialEq, Eq)]
pub enum Defined {
    /// There is none before the next semicolon.
    Absent,
    /// One whose definition has no `end`.
    Bare,
    /// One whose definition has an `end`, by its place among the tokens.
    Ended(usize),
}

/// What the first definition word is that stands at or after a place, and before a semicolon.
pub(crate) fn defined_from(words: &Words, tokens: &[Token], from: usize) -> Defined
    ensures { result ≡ spec.defined_from words.now from (drop from tokens.now) }
{
    for at in from..tokens.len() {
        let token = &tokens[at];
        if is_semicolon(token) {
            return Defined::Absent;
        }
        if is_word(MacroKind::Definition, words, token) {
            if has_no_end(token) {
                return Defined::Bare;
            }
            return Defined::Ended(at);
        }
    }
    Defined::Absent
}
