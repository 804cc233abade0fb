//! Brackets and commas.

ghost use Rattle.std.specs.Prelude.{◌≡◌};
ghost use Rattle.dy_fragment.specs.Signs as signs;

use dy_tree::Token;

/// The shape of a bracket, by its closer. `#(` and `#[` open like `(` and `[`.
#[derive(Clone, Copy, Debug, PartialEq, Eq)]
pub enum Bracket {
    /// `)`
    Round,
    /// `]`
    Square,
    /// `}`
    Curly,
}

/// What punctuation does to groups.
#[derive(Clone, Copy, Debug, PartialEq, Eq)]
pub enum Sign {
    Opens(Bracket),
    Closes(Bracket),
    Comma,
    Other,
}

fn closing_sign(token: &Token) -> Sign
    ensures { result ≡ signs.closing_sign token.now }
{
    if token.is_spelled(b")") {
        Sign::Closes(Bracket::Round)
    } else if token.is_spelled(b"]") {
        Sign::Closes(Bracket::Square)
    } else if token.is_spelled(b"}") {
        Sign::Closes(Bracket::Curly)
    } else if token.is_spelled(b",") {
        Sign::Comma
    } else {
        Sign::Other
    }
}

pub(crate) fn sign_of(token: &Token) -> Sign
    ensures { result ≡ signs.sign_of token.now }
{
    if token.is_spelled(b"(") {
        Sign::Opens(Bracket::Round)
    } else if token.is_spelled(b"#(") {
        Sign::Opens(Bracket::Round)
    } else if token.is_spelled(b"[") {
        Sign::Opens(Bracket::Square)
    } else if token.is_spelled(b"#[") {
        Sign::Opens(Bracket::Square)
    } else if token.is_spelled(b"{") {
        Sign::Opens(Bracket::Curly)
    } else {
        closing_sign(token)
    }
}

pub(crate) fn same_shape(opener: Bracket, closer: Bracket) -> bool
    ensures { result ≡ signs.same_shape opener closer }
{
    match opener {
        Bracket::Round => matches!(closer, Bracket::Round),
        Bracket::Square => matches!(closer, Bracket::Square),
        Bracket::Curly => matches!(closer, Bracket::Curly),
    }
}
