//! The words of the three forms of type.

ghost use Rattle.std.specs.Prelude.{◌≡◌};
ghost use Rattle.dy_rules.specs.Types as spec;

use dy_tree::{Token, TokenKind, TypeWord};

fn spelled_type_word(token: &Token) -> TypeWord
    ensures { result ≡ spec.spelled_type_word token.now }
{
    if token.is_spelled(b"singleton") {
        TypeWord::Singleton
    } else if token.is_spelled(b"type-union") {
        TypeWord::Union
    } else if token.is_spelled(b"limited") {
        TypeWord::Limited
    } else {
        TypeWord::Absent
    }
}

/// Which of these words a token is. An escaped name is none.
pub fn type_word(token: &Token) -> TypeWord
    ensures { result ≡ spec.type_word token.now }
{
    match token.kind {
        TokenKind::Name => spelled_type_word(token),
        _ => TypeWord::Absent,
    }
}
