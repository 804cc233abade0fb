//! The options of slots.

ghost use Rattle.std.specs.Prelude.{◌≡◌};
ghost use Rattle.dy_rules.specs.Definitions as spec;

use crate::role::role_of;
use dy_tree::{OptionWord, Role, Token};

fn spelled_option_word(token: &Token) -> OptionWord
    ensures { result ≡ spec.spelled_option_word token.now }
{
    if token.is_spelled(b"init-keyword") {
        OptionWord::Keyword
    } else if token.is_spelled(b"required-init-keyword") {
        OptionWord::Required
    } else if token.is_spelled(b"init-value") {
        OptionWord::Value
    } else if token.is_spelled(b"init-function") {
        OptionWord::Function
    } else if token.is_spelled(b"setter") {
        OptionWord::Setter
    } else {
        OptionWord::Absent
    }
}

/// Which of these symbols a token is.
pub fn option_word(token: &Token) -> OptionWord
    ensures { result ≡ spec.option_word token.now }
{
    match role_of(token) {
        Role::Symbol => spelled_option_word(token),
        _ => OptionWord::Absent,
    }
}

/// Whether a token is the name of a setter, or `#f`.
pub fn is_setter(token: &Token) -> bool
    ensures { result ≡ spec.is_setter token.now }
{
    match role_of(token) {
        Role::Named => true,
        Role::Boolean => token.is_spelled(b"#f"),
        _ => false,
    }
}
