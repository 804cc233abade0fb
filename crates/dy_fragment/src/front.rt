//! What a token does to groups.

ghost use Rattle.std.specs.Prelude.{◌≡◌, ◌+◌, ◌≤◌, ◌<◌, length, drop, codes};
ghost use Rattle.dy_fragment.specs.Fronts as spec;

use crate::closing::{Closing, Opening};
use crate::sign::{Bracket, Sign, sign_of};
use crate::word::{Defined, defined_from, is_define, is_end, is_word};
use dy_tree::{MacroKind, Token, TokenKind, Words};

/// Which words group.
#[derive(Clone, Copy, Debug, PartialEq, Eq)]
pub enum Mode {
    /// All words do.
    Words,
    /// Between `define` and its definition word, no word does.
    Header,
    /// Nor there within braces.
    BracedHeader,
    /// In a macro definition, outside of its braces, `end` alone does.
    Macro,
    /// Within the braces of a macro definition, no word does.
    Rules,
}

/// Whether the methods of a `local` are being listed.
#[derive(Clone, Copy, Debug, PartialEq, Eq)]
pub enum Local {
    Off,
    /// Directly after `local`, or after a comma between its methods.
    Wanted,
    /// Directly after one of its methods.
    Ended,
}

/// What stands before a token, as far as it matters for what the token does.
#[derive(Clone, Copy, Debug, PartialEq, Eq)]
pub struct Context {
    pub mode: Mode,
    pub local: Local,
}

/// What closes a group.
#[derive(Clone, Copy, Debug, PartialEq, Eq)]
pub enum Closer {
    Bracket(Bracket),
    End,
}

/// What a token does to groups.
#[derive(Clone, Copy, Debug, PartialEq, Eq)]
pub enum Front {
    /// It stands for itself.
    Leaf(Context),
    /// It opens a group.
    Opens(Closing, Context),
    /// It closes a group.
    Closes(Closer),
    /// It is a `define` without a definition word.
    Wrong,
}

fn leaf(mode: Mode) -> Front
    ensures { result ≡ spec.leaf mode }
{
    Front::Leaf(Context {
        mode,
        local: Local::Off,
    })
}

/// What groups inside a bracket.
fn inside(bracket: Bracket, outside: Mode) -> Mode
    ensures { result ≡ spec.inside bracket outside }
{
    match bracket {
        Bracket::Round => outside,
        Bracket::Square => outside,
        Bracket::Curly => match outside {
            Mode::Words => Mode::Words,
            Mode::Header | Mode::BracedHeader => Mode::BracedHeader,
            Mode::Macro => Mode::Rules,
            Mode::Rules => Mode::Rules,
        },
    }
}

fn after_comma(context: Context) -> Front
    ensures { result ≡ spec.after_comma context.mode context.local }
{
    let local = match context.local {
        Local::Off => Local::Off,
        Local::Wanted => Local::Off,
        Local::Ended => Local::Wanted,
    };
    Front::Leaf(Context {
        mode: context.mode,
        local,
    })
}

fn front_of_sign(sign: Sign, context: Context) -> Front
    ensures { result ≡ spec.front_of_sign sign context }
{
    match sign {
        Sign::Opens(bracket) => Front::Opens(
            Closing::Bracket(bracket, context.mode),
            Context {
                mode: inside(bracket, context.mode),
                local: Local::Off,
            },
        ),
        Sign::Closes(bracket) => Front::Closes(Closer::Bracket(bracket)),
        Sign::Comma => after_comma(context),
        Sign::Other => leaf(context.mode),
    }
}

fn front_of_define(defined: Defined) -> Front
    ensures { result ≡ spec.front_of_define defined }
{
    match defined {
        Defined::Absent => Front::Wrong,
        Defined::Bare => leaf(Mode::Header),
        Defined::Ended(word) => Front::Opens(
            Closing::Word(word, Opening::Definition),
            Context {
                mode: Mode::Header,
                local: Local::Off,
            },
        ),
    }
}

fn is_wanted(local: Local) -> bool
    ensures { result ≡ spec.is_wanted local }
{
    match local {
        Local::Wanted => true,
        Local::Off => false,
        Local::Ended => false,
    }
}

fn opening_of(token: &Token, local: Local) -> Opening
    ensures { result ≡ spec.opening_of token.now local }
{
    if is_wanted(local) && token.is_spelled(b"method") {
        Opening::LocalMethod
    } else {
        Opening::Statement
    }
}

/// A name that is neither `end` nor `define`, where words group.
fn front_of_word(words: &Words, token: &Token, at: usize, local: Local) -> Front
    ensures { result ≡ spec.front_of_word words.now token.now at local }
{
    if is_word(MacroKind::Statement, words, token) {
        Front::Opens(
            Closing::Word(at, opening_of(token, local)),
            Context {
                mode: Mode::Words,
                local: Local::Off,
            },
        )
    } else if token.is_spelled(b"local") {
        Front::Leaf(Context {
            mode: Mode::Words,
            local: Local::Wanted,
        })
    } else {
        leaf(Mode::Words)
    }
}

fn front_of_name(words: &Words, tokens: &[Token], token: &Token, at: usize, local: Local) -> Front
    requires { at < length tokens.now }
    ensures { result ≡ spec.front_of_name words.now tokens.now token.now at local }
{
    if is_end(token) {
        Front::Closes(Closer::End)
    } else if is_define(token) {
        front_of_define(defined_from(words, tokens, at + 1))
    } else {
        front_of_word(words, token, at, local)
    }
}

/// What groups behind the word of a macro definition, and outside of braces in which it stands.
pub(crate) fn in_macro(mode: Mode) -> Mode
    ensures { result ≡ spec.in_macro mode }
{
    match mode {
        Mode::Words => Mode::Words,
        Mode::Header | Mode::Macro => Mode::Macro,
        Mode::BracedHeader | Mode::Rules => Mode::Rules,
    }
}

fn front_of_definition(token: &Token, mode: Mode) -> Front
    ensures { result ≡ spec.front_of_definition token.now mode }
{
    if token.is_spelled(b"macro") {
        leaf(in_macro(mode))
    } else {
        leaf(Mode::Words)
    }
}

/// A name after `define`, up to the definition word.
fn front_in_header(words: &Words, token: &Token, mode: Mode) -> Front
    ensures { result ≡ spec.front_in_header words.now token.now mode }
{
    if is_word(MacroKind::Definition, words, token) {
        front_of_definition(token, mode)
    } else {
        leaf(mode)
    }
}

fn front_in_macro(token: &Token) -> Front
    ensures { result ≡ spec.front_in_macro token.now }
{
    if is_end(token) {
        Front::Closes(Closer::End)
    } else {
        leaf(Mode::Macro)
    }
}

/// What a token at a place does.
pub(crate) fn front_at(
    words: &Words,
    tokens: &[Token],
    token: &Token,
    at: usize,
    context: Context,
) -> Front
    requires { at < length tokens.now }
    ensures { result ≡ spec.front_at words.now tokens.now token.now at context }
{
    match token.kind {
        TokenKind::Punctuation => front_of_sign(sign_of(token), context),
        TokenKind::Name => match context.mode {
            Mode::Words => front_of_name(words, tokens, token, at, context.local),
            Mode::Header | Mode::BracedHeader => front_in_header(words, token, context.mode),
            Mode::Macro => front_in_macro(token),
            Mode::Rules => leaf(Mode::Rules),
        },
        _ => leaf(context.mode),
    }
}
