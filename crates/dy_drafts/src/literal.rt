//! Literals of the source as literals of the core (DRM 3, "Literal constants").

ghost use Rattle.std.specs.Prelude.{◌≡◌, IfOk};
ghost use Rattle.dy_base.specs.Folding.{folded};
ghost use Rattle.dy_term.specs.Drafts.{literal, seen_term};
ghost use Rattle.dy_drafts.specs.Shapes.{byte_of, integer_of, literal_of};

use dy_base::{Text, fold};
use dy_term::{DraftTerm, Literal};
use dy_tree::{IntegerForm, LiteralForm, Token};
use std::alloc::{AllocError, Global};

/// The number of an integer.
pub fn integer_of(form: &IntegerForm) -> i64
    ensures { result ≡ integer_of form.now }
{
    match &form.minus {
        None => form.digits.number,
        Some(_) => form.digits.number.wrapping_neg(),
    }
}

fn byte_of(text: &[u8]) -> u8
    ensures { result ≡ byte_of text.now }
{
    match text.first() {
        None => 0,
        Some(byte) => *byte,
    }
}

/// A literal.
pub fn literal_of(alloc: Global, form: &LiteralForm) -> Result<Literal, AllocError>
    ensures { IfOk result (λ literal. literal ≡ literal_of form.now) }
{
    match form {
        LiteralForm::Int(form) => Ok(Literal::Int(integer_of(form))),
        LiteralForm::Char(token) => Ok(Literal::Char(byte_of(token.text.bytes()))),
        LiteralForm::Str(token) => Ok(Literal::Str(Text::of(alloc, token.text.bytes())?)),
        LiteralForm::Bool(token) => Ok(Literal::Bool(token.is_spelled(b"#t"))),
        LiteralForm::Symbol(token) => Ok(Literal::Symbol(fold(alloc, token.text.bytes())?)),
    }
}

/// The keyword of an argument, which is a symbol.
pub fn keyword_of(alloc: Global, keyword: &Token) -> Result<DraftTerm, AllocError>
    ensures { IfOk result (λ term. seen_term term
        ≡ literal (Literal.Symbol (folded keyword.now.text))) }
{
    let name = fold(alloc, keyword.text.bytes())?;
    Ok(DraftTerm::Lit(Literal::Symbol(name)))
}
