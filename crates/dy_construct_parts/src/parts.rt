//! The constructs of what has no parts that recur (DRM 3, "Literal constants").

ghost use Rattle.std.specs.Prelude.{◌≡◌};
ghost use Rattle.dy_rules.specs.SeenTypes.{seen_single};
ghost use Rattle.dy_construct_parts.specs.Table as table;
ghost use Rattle.dy_construct_parts.specs.Parts as parts;

use crate::construct::{Construct, absent};
use dy_tree::{LiteralForm, SingleForm, Token};

/// The construct, if the token stands there and the construct has not come.
pub fn where_given(construct: Construct, token: &Option<Token>) -> Option<Construct>
    ensures { result ≡ table.first_absent (table.where_given construct token.now) }
{
    match token {
        None => None,
        Some(_) => absent(construct),
    }
}

pub fn in_literal(form: &LiteralForm) -> Option<Construct>
    ensures { result ≡ table.absent (parts.of_literal form.now) }
{
    match form {
        LiteralForm::Int(_) => absent(Construct::Integer),
        LiteralForm::Char(_) => absent(Construct::Character),
        LiteralForm::Str(_) => absent(Construct::String),
        LiteralForm::Bool(_) => absent(Construct::Boolean),
        LiteralForm::Symbol(_) => absent(Construct::Symbol),
    }
}

/// The only value of a singleton type.
pub fn in_single(form: &SingleForm) -> Option<Construct>
    ensures { result ≡ table.absent (parts.of_single (seen_single form.now)) }
{
    match form {
        SingleForm::Literal(literal) => in_literal(literal),
        SingleForm::Empty { .. } => absent(Construct::List),
        SingleForm::Name(_) => absent(Construct::Name),
    }
}
