//! Where an expression begins.

ghost use Rattle.std.specs.Prelude.{◌≡◌, option_map};
ghost use Rattle.dy_rules.specs.SeenForms.{seen_tree};
ghost use Rattle.dy_desugar.specs.Table.{first_token, literal_token, name_in};

use dy_tree::{Expression, LiteralForm, Token};

/// The first token of a literal.
fn literal_token(form: &LiteralForm) -> &Token
    ensures { result.now ≡ literal_token form.now }
{
    match form {
        LiteralForm::Int(number) => match &number.minus {
            None => &number.digits,
            Some(minus) => minus,
        },
        LiteralForm::Char(token)
        | LiteralForm::Str(token)
        | LiteralForm::Bool(token)
        | LiteralForm::Symbol(token) => token,
    }
}

/// The first token of an expression. Brackets round it are no part of the tree.
#[tactic(auto, using(crate::proofs::Places::statement_first))]
pub(crate) fn first_token(expression: &Expression) -> &Token
    ensures { result.now ≡ first_token (seen_tree expression.now) }
{
    match expression {
        Expression::Assign { place: inner, .. }
        | Expression::Operation { left: inner, .. }
        | Expression::Call {
            function: inner,
            ..
        }
        | Expression::Element { object: inner, .. }
        | Expression::Member { object: inner, .. } => first_token(inner),
        Expression::Literal(form) => literal_token(form),
        Expression::Unary {
            operator: token,
            ..
        }
        | Expression::Name(token)
        | Expression::List { opener: token, .. }
        | Expression::Vector { opener: token, .. } => token,
        Expression::Statement(statement) => statement.word(),
    }
}

/// The name that an expression is, if it is one.
pub fn name_in(expression: &Expression) -> Option<&Token>
    ensures { option_map (λ token. token.now) result ≡ name_in (seen_tree expression.now) }
{
    match expression {
        Expression::Name(token) => Some(token),
        _ => None,
    }
}
