//! The tokens of a source file (DRM 2, "Lexical syntax").

ghost use Rattle.std.specs.Prelude.{◌≡◌, IfOk};
ghost use Rattle.dy_tree.specs.Spelling as spelling;

use dy_base::{Place, Text};
use std::alloc::AllocError;

/// What a token is.
#[derive(Clone, Copy, Debug, PartialEq, Eq)]
pub enum TokenKind {
    /// A name, which may be a word.
    Name,
    /// A name or an operator after a backslash, which is never a word.
    Escaped,
    /// A name with a colon behind it, or a quoted symbol.
    Symbol,
    /// An integer.
    Int,
    /// A character.
    Char,
    /// A string, or several that stand side by side.
    Str,
    /// `#t`, `#f`, `#next`, `#rest`, `#key` or `#all-keys`.
    Mark,
    /// A variable of a macro's pattern or template.
    PatternVar,
    /// `?=` with a name: the name as it stands where the macro is called (own).
    CallSite,
    /// An operator.
    Operator,
    /// A bracket or another mark between parts.
    Punctuation,
}

/// A token.
#[derive(Clone, Debug, Drop)]
pub struct Token {
    pub kind: TokenKind,
    /// Of a name, escaped name, symbol or call-site name the folded name alone; of a character or a
    /// string the bytes that it stands for; of any other token its bytes, folded.
    pub text: Text,
    /// The value of an integer, and else 0.
    pub number: i64,
    pub place: Place,
    /// 0 for the source, else the number of the expansion that made the token.
    pub origin: u32,
    /// The number of the module in which a name of this token is looked up.
    pub module: u32,
}

impl Token {
    /// The same token, in memory of its own.
    pub fn copy(&self) -> Result<Token, AllocError>
        ensures { IfOk result (λ copy. copy ≡ self.now) }
    {
        self.clone()
    }

    /// Whether the text is these bytes.
    pub fn is_spelled(&self, text: &[u8]) -> bool
        ensures { result ≡ spelling.is_spelled text.now self.now }
    {
        self.text.bytes() == text
    }

    /// Whether it is this name, without a backslash.
    pub fn is_word(&self, text: &[u8]) -> bool
        ensures { result ≡ spelling.is_word text.now self.now }
    {
        matches!(self.kind, TokenKind::Name) && self.is_spelled(text)
    }

    /// Whether it is this punctuation.
    pub fn is_sign(&self, text: &[u8]) -> bool
        ensures { result ≡ spelling.is_sign text.now self.now }
    {
        matches!(self.kind, TokenKind::Punctuation) && self.is_spelled(text)
    }
}
