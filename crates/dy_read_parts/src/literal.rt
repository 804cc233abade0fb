//! Literals.

ghost use Rattle.std.specs.Prelude.{◌≡◌, IfOk};
ghost use Rattle.dy_rules.specs.Roles as rules;
ghost use Rattle.dy_rules.specs.Constants as spec;

use dy_read_words::role::role_of;
use dy_tree::{IntegerForm, LiteralForm, Role, Token};
use std::alloc::AllocError;

/// An integer without a minus.
pub fn positive(digits: &Token) -> Result<LiteralForm, AllocError>
    ensures { IfOk result (λ form. form ≡ rules.positive digits.now) }
{
    Ok(LiteralForm::Int(IntegerForm {
        minus: None,
        digits: digits.copy()?,
    }))
}

/// An integer with a minus.
pub fn negative(sign: &Token, digits: &Token) -> Result<LiteralForm, AllocError>
    ensures { IfOk result (λ form. form ≡ rules.negative sign.now digits.now) }
{
    Ok(LiteralForm::Int(IntegerForm {
        minus: Some(sign.copy()?),
        digits: digits.copy()?,
    }))
}

/// The literal that one token is.
pub fn token_literal(token: &Token) -> Result<Option<LiteralForm>, AllocError>
    ensures { IfOk result (λ found. found
        ≡ spec.token_literal (rules.role_of token.now) token.now) }
{
    match role_of(token) {
        Role::Integer => Ok(Some(positive(token)?)),
        Role::Character => Ok(Some(LiteralForm::Char(token.copy()?))),
        Role::Text => Ok(Some(LiteralForm::Str(token.copy()?))),
        Role::Boolean => Ok(Some(LiteralForm::Bool(token.copy()?))),
        Role::Symbol => Ok(Some(LiteralForm::Symbol(token.copy()?))),
        _ => Ok(None),
    }
}
