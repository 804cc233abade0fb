//! Single operators, marks and symbols.

ghost use Rattle.std.specs.Prelude.{◌≡◌};
ghost use Rattle.dy_rules.specs.Productions as productions;
ghost use Rattle.dy_rules.specs.Types as spec;

use crate::role::role_of;
use dy_tree::{Precedence, Role, Token, TokenKind};

fn is_mark_kind(kind: TokenKind) -> bool
    ensures { result ≡ spec.is_mark_kind kind }
{
    matches!(kind, TokenKind::Mark)
}

fn is_symbol_kind(kind: TokenKind) -> bool
    ensures { result ≡ spec.is_symbol_kind kind }
{
    matches!(kind, TokenKind::Symbol)
}

/// Whether a token is this mark: `#rest`, `#next`, `#key` or `#all-keys`.
pub fn is_mark(text: &[u8], token: &Token) -> bool
    ensures { result ≡ spec.is_mark text.now token.now }
{
    is_mark_kind(token.kind) && token.is_spelled(text)
}

/// Whether a token is this symbol.
pub fn is_symbol_of(text: &[u8], token: &Token) -> bool
    ensures { result ≡ spec.is_symbol_of text.now token.now }
{
    is_symbol_kind(token.kind) && token.is_spelled(text)
}

/// Whether a token is `min:` or `max:`.
pub fn is_bound(token: &Token) -> bool
    ensures { result ≡ spec.is_bound token.now }
{
    is_symbol_of(b"min", token) || is_symbol_of(b"max", token)
}

/// Whether a token is `while:` or `until:`, with which a loop ends.
pub fn is_stop_word(token: &Token) -> bool
    ensures { result ≡ productions.is_stop_word token.now }
{
    matches!(role_of(token), Role::Symbol)
        && (token.is_spelled(b"while") || token.is_spelled(b"until"))
}

fn is_comparison(role: Role) -> bool
    ensures { result ≡ spec.is_comparison role }
{
    match role {
        Role::Operator(precedence) => matches!(precedence, Precedence::Comparison),
        _ => false,
    }
}

/// Whether a token is `==`.
pub fn is_identity(token: &Token) -> bool
    ensures { result ≡ spec.is_identity token.now }
{
    is_comparison(role_of(token)) && token.is_spelled(b"==")
}

/// Whether a token is `=`.
pub fn is_equals(token: &Token) -> bool
    ensures { result ≡ spec.is_equals token.now }
{
    is_comparison(role_of(token)) && token.is_spelled(b"=")
}
