//! Round which trees brackets stand.

ghost use Rattle.std.specs.Prelude.{◌≡◌};
ghost use Rattle.dy_rules.specs.Roles.{role_of};
ghost use Rattle.dy_rules.specs.Writing as spec;
ghost use Rattle.dy_rules.specs.SeenForms.{seen_tree};

use dy_read_words::role::role_of;
use dy_read_words::splitter::splits;
use dy_tree::{Expression, LiteralForm, Role, Splitting, Token};

/// Whether a name splits some statement.
fn splits_some(token: &Token) -> bool
    ensures { result ≡ spec.splits_some token.now }
{
    splits(Splitting::Branches, token)
        || splits(Splitting::Endings, token)
        || splits(Splitting::LastPart, token)
        || splits(Splitting::Steps, token)
        || splits(Splitting::Tests, token)
}

/// Whether a literal is written with brackets where it is an operand.
fn literal_bracketed(form: &LiteralForm) -> bool
    ensures { result ≡ spec.literal_bracketed form.now }
{
    match form {
        LiteralForm::Int(integer) => integer.minus.is_some(),
        LiteralForm::Symbol(_) => true,
        LiteralForm::Char(_) | LiteralForm::Str(_) | LiteralForm::Bool(_) => false,
    }
}

fn is_integer_literal(form: &LiteralForm) -> bool
    ensures { result ≡ spec.is_integer_literal form.now }
{
    matches!(form, LiteralForm::Int(_))
}

/// Whether an operator is a minus.
fn is_minus(operator: &Token) -> bool
    ensures { result ≡ spec.is_minus_role (role_of operator.now) }
{
    matches!(role_of(operator), Role::Minus)
}

/// Whether a tree is written with brackets wherever it stands.
pub fn splits_tree(form: &Expression) -> bool
    ensures { result ≡ spec.splits_tree (seen_tree form.now) }
{
    match form {
        Expression::Name(token) => splits_some(token),
        Expression::Member { name, .. } => splits_some(name),
        _ => false,
    }
}

/// Whether a tree is written with brackets where it is an operand.
#[tactic(auto, using(crate::proofs::Expressions::statement_operand))]
pub fn operand_bracketed(form: &Expression) -> bool
    ensures { result ≡ spec.operand_bracketed (seen_tree form.now) }
{
    match form {
        Expression::Assign { .. } | Expression::Unary { .. } => true,
        Expression::Operation { .. } | Expression::Call { .. } => true,
        Expression::Element { .. } | Expression::Member { .. } => true,
        Expression::Literal(literal) => literal_bracketed(literal),
        Expression::Name(token) => splits_some(token),
        Expression::List { .. } | Expression::Vector { .. } => false,
        Expression::Statement(_) => false,
    }
}

/// Whether a tree is written with brackets where it is the operand of a minus.
fn minus_bracketed(form: &Expression) -> bool
    ensures { result ≡ spec.minus_bracketed (seen_tree form.now) }
{
    match form {
        Expression::Literal(literal) => is_integer_literal(literal) || literal_bracketed(literal),
        _ => operand_bracketed(form),
    }
}

/// Whether a tree is written with brackets behind a unary operator.
pub fn unary_bracketed(operator: &Token, form: &Expression) -> bool
    ensures { result ≡ spec.unary_bracketed (spec.is_minus_role (role_of operator.now))
        (seen_tree form.now) }
{
    if is_minus(operator) {
        minus_bracketed(form)
    } else {
        operand_bracketed(form)
    }
}
