//! The constructs of lists and vectors of literals (DRM 3, "Literal constants").

ghost use Rattle.std.specs.Prelude.{◌≡◌, flat_map, map, option_map};
ghost use Rattle.dy_rules.specs.ConstantTrees.{tail_of};
ghost use Rattle.dy_rules.specs.SeenTypes.{seen_constant};
ghost use Rattle.dy_construct_parts.specs.Table.{first_absent};
ghost use Rattle.dy_construct_parts.specs.Parts as parts;

use crate::construct::{Construct, absent};
use crate::parts::in_literal;
use dy_tree::ConstantForm;

/// An item of a list or a vector.
#[cycle(constants)]
fn in_constant(form: &ConstantForm) -> Option<Construct>
    ensures { result ≡ first_absent (parts.in_constant (seen_constant form.now)) }
{
    match form {
        ConstantForm::Literal(literal) => in_literal(literal),
        ConstantForm::List { items, tail, .. } => absent(Construct::List)
            .or(in_constants(items))
            .or(in_boxed_tail(tail)),
        ConstantForm::Vector { items, .. } => absent(Construct::Vector).or(in_constants(items)),
    }
}

#[cycle(constants)]
pub fn in_constants(forms: &Vec<ConstantForm>) -> Option<Construct>
    ensures { result
        ≡ first_absent (flat_map parts.in_constant (map seen_constant forms.now.items)) }
{
    let mut found = None;
    for form in forms {
        found = found.or(in_constant(form));
    }
    found
}

/// The tail of a list inside of a literal.
#[cycle(constants)]
fn in_boxed_tail(tail: &Option<Box<ConstantForm>>) -> Option<Construct>
    ensures { result
        ≡ first_absent
        (parts.in_tail (tail_of (option_map (λ boxed. seen_constant boxed.value) tail.now))) }
{
    match tail {
        None => None,
        Some(form) => absent(Construct::DottedTail).or(in_constant(form)),
    }
}

/// The tail of a list.
pub fn in_tail(tail: &Option<ConstantForm>) -> Option<Construct>
    ensures { result ≡ first_absent (parts.in_tail (tail_of (option_map seen_constant tail.now))) }
{
    match tail {
        None => None,
        Some(form) => absent(Construct::DottedTail).or(in_constant(form)),
    }
}
