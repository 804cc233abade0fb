//! Classes of bytes, and kinds of piece.

ghost use Rattle.std.specs.Prelude.{◌≡◌, ◌≤◌, IfSome, option_map, map};
ghost use Rattle.dy_pieces.specs.Bytes as bytes;

use dy_tree::TokenKind;

/// What a byte at the front of a piece says.
#[derive(Clone, Copy, Debug, PartialEq, Eq)]
pub enum Class {
    /// A letter.
    Letter,
    /// A digit.
    Digit,
    /// One of the characters that may stand before the first letter of a name.
    Graphic,
    /// `-`, `+`, `~` and `=`, which may stand in a name and begin an operator.
    Joint,
    /// Any other byte that begins an operator or punctuation and nothing else.
    Sign,
    /// `/`
    Slash,
    /// `#`
    Hash,
    /// `?`
    Question,
    /// `\`
    Backslash,
    /// `'`
    SingleQuote,
    /// `"`
    DoubleQuote,
    /// A blank.
    Space,
    /// A byte that begins nothing.
    Other,
}

/// What stands at a place of a text.
#[derive(Clone, Copy, Debug, PartialEq, Eq)]
pub enum Piece {
    Token(TokenKind),
    /// A comment, of either kind.
    Comment,
    /// A run of blanks.
    Blank,
}

/// The class of a byte. No byte above 127 begins anything.
pub fn class_of(b: u8) -> Class
    ensures { result ≡ bytes.class_of b }
{
    match b {
        b'a'..=b'z' | b'A'..=b'Z' => Class::Letter,
        b'0'..=b'9' => Class::Digit,
        b' ' | 9..=10 | 12..=13 => Class::Space,
        b'!' | 36..=38 | b'*' | b'<' | b'>' | b'@' | b'^' | b'_' | b'|' => Class::Graphic,
        b'+' | b'-' | b'=' | b'~' => Class::Joint,
        b'(' | b')' | b',' | b'.' | b':' | b';' | b'[' | b']' | b'{' | b'}' => Class::Sign,
        b'/' => Class::Slash,
        b'#' => Class::Hash,
        b'?' => Class::Question,
        b'\\' => Class::Backslash,
        b'\'' => Class::SingleQuote,
        b'"' => Class::DoubleQuote,
        _ => Class::Other,
    }
}

/// Whether the byte stands in names after their first letter.
pub(crate) fn in_name(b: u8) -> bool
    ensures { result ≡ bytes.in_name b }
{
    matches!(
        class_of(b),
        Class::Letter
            | Class::Digit
            | Class::Graphic
            | Class::Joint
            | Class::Slash
            | Class::Question
    )
}

/// Whether the byte is a decimal digit.
pub fn is_digit(b: u8) -> bool
    ensures { result ≡ bytes.is_digit b }
{
    matches!(class_of(b), Class::Digit)
}

/// Whether the byte is a letter of ASCII.
pub fn is_letter(b: u8) -> bool
    ensures { result ≡ bytes.is_letter b }
{
    matches!(class_of(b), Class::Letter)
}

/// Whether the byte is a blank: a space, a tab, a form feed, CR or LF.
pub fn is_blank(b: u8) -> bool
    ensures { result ≡ bytes.is_blank b }
{
    matches!(class_of(b), Class::Space)
}

/// The value of a digit of any base up to 16.
pub(crate) fn digit_of(b: u8) -> Option<u8>
    ensures value { result ≡ bytes.digit_of b }
    ensures small { IfSome result (λ d. d ≤ 15) }
{
    match b {
        b'0'..=b'9' => Some(b - 48),
        b'a'..=b'f' => Some(b - 87),
        b'A'..=b'F' => Some(b - 55),
        _ => None,
    }
}

pub(crate) fn in_base(base: u8, b: u8) -> bool
    ensures { result ≡ bytes.in_base base b }
{
    match digit_of(b) {
        Some(d) => d < base,
        None => false,
    }
}

/// The base that a letter after `#` names.
pub(crate) fn base_of(b: u8) -> Option<u8>
    ensures value { result ≡ bytes.base_of b }
    ensures some { IfSome result (λ base. 2 ≤ base) }
    ensures small { IfSome result (λ base. base ≤ 16) }
{
    match b {
        b'b' | b'B' => Some(2),
        b'o' | b'O' => Some(8),
        b'x' | b'X' => Some(16),
        _ => None,
    }
}
