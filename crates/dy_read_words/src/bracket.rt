//! What encloses a group.

ghost use Rattle.std.specs.Prelude.{◌≡◌};
ghost use Rattle.dy_rules.specs.Roles as spec;

use dy_tree::{Bracket, Guard, Keyword, Token};

fn begun_by_word(opener: &Token) -> Bracket
    ensures { result ≡ spec.begun_by_word opener.now }
{
    if opener.is_word(b"begin") {
        Bracket::Statement(Keyword::Begin)
    } else if opener.is_word(b"if") {
        Bracket::Statement(Keyword::If)
    } else if opener.is_word(b"unless") {
        Bracket::Statement(Keyword::Guard(Guard::Unless))
    } else if opener.is_word(b"while") {
        Bracket::Statement(Keyword::Guard(Guard::While))
    } else if opener.is_word(b"until") {
        Bracket::Statement(Keyword::Guard(Guard::Until))
    } else if opener.is_word(b"case") {
        Bracket::Statement(Keyword::Case)
    } else if opener.is_word(b"select") {
        Bracket::Statement(Keyword::Select)
    } else if opener.is_word(b"block") {
        Bracket::Statement(Keyword::Block)
    } else if opener.is_word(b"for") {
        Bracket::Statement(Keyword::For)
    } else if opener.is_word(b"method") {
        Bracket::Statement(Keyword::Method)
    } else if opener.is_word(b"define") {
        Bracket::Statement(Keyword::Define)
    } else {
        Bracket::Special
    }
}

/// What an opener begins.
fn begun_by(opener: &Token) -> Bracket
    ensures { result ≡ spec.begun_by opener.now }
{
    if opener.is_sign(b"(") {
        Bracket::Round
    } else if opener.is_sign(b"[") {
        Bracket::Square
    } else if opener.is_sign(b"") {
        Bracket::Hidden
    } else if opener.is_sign(b"#(") {
        Bracket::SharpRound
    } else if opener.is_sign(b"#[") {
        Bracket::SharpSquare
    } else {
        begun_by_word(opener)
    }
}

/// What such an opener and a closer enclose.
fn closed_by(begun: Bracket, closer: &Token) -> Bracket
    ensures { result ≡ spec.closed_by begun closer.now }
{
    let closes = match begun {
        Bracket::Round | Bracket::SharpRound => closer.is_sign(b")"),
        Bracket::Square | Bracket::SharpSquare => closer.is_sign(b"]"),
        Bracket::Hidden => closer.is_sign(b""),
        Bracket::Statement(_) => closer.is_word(b"end"),
        Bracket::Special => false,
    };
    if closes { begun } else { Bracket::Special }
}

/// What an opener and a closer enclose.
pub fn bracket_of(opener: &Token, closer: &Token) -> Bracket
    ensures { result ≡ spec.bracket_of opener.now closer.now }
{
    closed_by(begun_by(opener), closer)
}
