//! What closes a group.

ghost use Rattle.std.specs.Prelude.{◌≡◌, ◌+◌, ◌≤◌, ◌<◌, length, slice_get};
ghost use Rattle.dy_fragment.specs.Closings as spec;

use crate::front::{Closer, Context, Local, Mode, in_macro};
use crate::sign::{Bracket, same_shape};
use crate::word::{is_define, is_end, is_escaped, is_name, is_word};
use dy_base::Place;
use dy_tree::{MacroKind, Token, Words};

/// What a word opened.
#[derive(Clone, Copy, Debug, PartialEq, Eq)]
pub enum Opening {
    /// A statement.
    Statement,
    /// A method of a `local`, whose name may be repeated after its `end`.
    LocalMethod,
    /// A definition, whose name may be repeated after its `end`.
    Definition,
}

/// What a group that is open needs to be closed.
#[derive(Clone, Copy, Debug, PartialEq, Eq)]
pub enum Closing {
    /// A bracket of this shape. What grouped outside is kept with it.
    Bracket(Bracket, Mode),
    /// An `end`. The word that may be repeated after it stands at this place among the tokens.
    Word(usize, Opening),
}

/// Where grouping goes on after a closer, or the place of what is wrong.
#[derive(Clone, Copy, Debug, PartialEq, Eq)]
pub enum Closed {
    At(usize, Context),
    Wrong(Place),
}

fn is_same_word(word: &Token, token: &Token) -> bool
    ensures { result ≡ spec.is_same_word word.now token.now }
{
    token.is_word(word.text.bytes())
}

/// Whether a token may be a name that is defined.
fn may_be_defined(token: &Token) -> bool
    ensures { result ≡ spec.may_be_defined token.now }
{
    if is_escaped(token.kind) {
        true
    } else {
        is_name(token.kind) && !is_end(token) && !is_define(token)
    }
}

fn is_same_name(name: &Token, token: &Token) -> bool
    ensures { result ≡ spec.is_same_name name.now token.now }
{
    may_be_defined(name) && may_be_defined(token) && token.is_spelled(name.text.bytes())
}

/// The place after the opener's word, if that stands here.
fn past_word(tokens: &[Token], word: usize, at: usize) -> usize
    ensures value { result ≡ spec.past_word tokens.now word at }
    ensures ahead { at ≤ result }
    ensures within { at ≤ length tokens.now → result ≤ length tokens.now }
{
    match tokens.get(word) {
        None => at,
        Some(word) => match tokens.get(at) {
            None => at,
            Some(token) => {
                if is_same_word(word, token) {
                    at + 1
                } else {
                    at
                }
            }
        },
    }
}

/// The place after the defined name, if that stands here. It is the one directly after the word.
fn past_name(tokens: &[Token], word: usize, at: usize) -> usize
    ensures value { result ≡ spec.past_name tokens.now word at }
    ensures ahead { at ≤ result }
    ensures within { at ≤ length tokens.now → result ≤ length tokens.now }
{
    if tokens.len() <= word {
        return at;
    }
    match tokens.get(word + 1) {
        None => at,
        Some(name) => match tokens.get(at) {
            None => at,
            Some(token) => {
                if is_same_name(name, token) {
                    at + 1
                } else {
                    at
                }
            }
        },
    }
}

/// The place after the words that may follow an `end`.
fn past_end(tokens: &[Token], word: usize, opening: Opening, at: usize) -> usize
    ensures value { result ≡ spec.past_end tokens.now word opening at }
    ensures ahead { at ≤ result }
    ensures within { at ≤ length tokens.now → result ≤ length tokens.now }
{
    let after = past_word(tokens, word, at);
    match opening {
        Opening::Statement => after,
        Opening::LocalMethod | Opening::Definition => past_name(tokens, word, after),
    }
}

/// Whether a token is a word that may stand after no `end` but its own.
fn is_foreign(words: &Words, token: &Token) -> bool
    ensures { result ≡ spec.is_foreign words.now token.now }
{
    is_word(MacroKind::Statement, words, token) || is_word(MacroKind::Definition, words, token)
}

fn after_word(opening: Opening) -> Context
    ensures { result ≡ spec.after_word opening }
{
    match opening {
        Opening::LocalMethod => Context {
            mode: Mode::Words,
            local: Local::Ended,
        },
        Opening::Statement | Opening::Definition => Context {
            mode: Mode::Words,
            local: Local::Off,
        },
    }
}

/// An `end` that closes a word, where what may follow it ends at a place.
fn closed_word(words: &Words, tokens: &[Token], opening: Opening, at: usize) -> Closed
    requires { at ≤ length tokens.now }
    ensures value { result ≡ spec.closed_word words.now opening at (slice_get tokens.now at) }
    ensures within { spec.IsWithin at (length tokens.now) result }
{
    match tokens.get(at) {
        None => Closed::At(at, after_word(opening)),
        Some(token) => {
            if is_foreign(words, token) {
                Closed::Wrong(token.place)
            } else {
                Closed::At(at, after_word(opening))
            }
        }
    }
}

fn after_bracket(outside: Mode, inside: Mode) -> Context
    ensures { result ≡ spec.after_bracket outside inside }
{
    let mode = match inside {
        Mode::Rules => in_macro(outside),
        Mode::BracedHeader => outside,
        Mode::Words => Mode::Words,
        Mode::Header => Mode::Header,
        Mode::Macro => Mode::Macro,
    };
    Context {
        mode,
        local: Local::Off,
    }
}

/// What a closer does to the group that is open. What follows it stands at a place.
pub(crate) fn close(
    words: &Words,
    tokens: &[Token],
    closing: Closing,
    closer: Closer,
    token: &Token,
    after: usize,
    context: Context,
) -> Closed
    requires { after ≤ length tokens.now }
    ensures value { result ≡ spec.close words.now tokens.now closing closer token.now after
        context }
    ensures within { spec.IsWithin after (length tokens.now) result }
{
    match closing {
        Closing::Bracket(opener, outside) => match closer {
            Closer::Bracket(bracket) => {
                if same_shape(opener, bracket) {
                    Closed::At(after, after_bracket(outside, context.mode))
                } else {
                    Closed::Wrong(token.place)
                }
            }
            Closer::End => Closed::Wrong(token.place),
        },
        Closing::Word(word, opening) => match closer {
            Closer::Bracket(_) => Closed::Wrong(token.place),
            Closer::End => {
                let past = past_end(tokens, word, opening, after);
                closed_word(words, tokens, opening, past)
            }
        },
    }
}
