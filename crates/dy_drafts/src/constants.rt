//! Lists and vectors of literals (DRM 3, "Literal constants").

ghost use Rattle.std.specs.Prelude.{◌≡◌, map, option_map, IfOk};
ghost use Rattle.dy_drafts.specs.Shapes.{list_of};
ghost use Rattle.dy_drafts.specs.Literals.{literal_in, literals_in, last_in};

use crate::literal::literal_of;
use dy_base::Items;
use dy_term::{Literal, list_literal};
use dy_tree::ConstantForm;
use std::alloc::{AllocError, Global};

/// The literal of an item.
#[cycle(constants)]
fn constant_of(alloc: Global, form: &ConstantForm) -> Result<Literal, AllocError>
    ensures { IfOk result (λ literal. literal ≡ literal_in form.now) }
{
    match form {
        ConstantForm::Literal(literal) => literal_of(alloc, literal),
        ConstantForm::List { items, tail, .. } => {
            let items = constants_of(alloc, items)?;
            let tail = tail_of(alloc, tail)?;
            list_from(alloc, items, tail)
        }
        ConstantForm::Vector { items, .. } => Ok(Literal::Vector(constants_of(alloc, items)?)),
    }
}

/// The literals of items.
#[cycle(constants)]
fn constants_of(alloc: Global, forms: &Vec<ConstantForm>) -> Result<Items<Literal>, AllocError>
    ensures { IfOk result (λ literals. literals ≡ map literal_in forms.now.items) }
{
    let mut literals = Items::new(alloc);
    for form in forms {
        literals.push(constant_of(alloc, form)?)?;
    }
    Ok(literals)
}

/// The literal behind a dot, if there is one.
#[cycle(constants)]
fn tail_of(alloc: Global, tail: &Option<Box<ConstantForm>>) -> Result<Option<Literal>, AllocError>
    ensures { IfOk result (λ literal. literal
        ≡ last_in (option_map (λ form. form.value) tail.now)) }
{
    match tail {
        None => Ok(None),
        Some(form) => Ok(Some(constant_of(alloc, form)?)),
    }
}

/// A list, which without items is the empty one.
fn list_from(
    alloc: Global,
    items: Items<Literal>,
    tail: Option<Literal>,
) -> Result<Literal, AllocError>
    ensures { IfOk result (λ literal. literal ≡ list_of items tail) }
{
    if items.as_slice().is_empty() {
        return Ok(Literal::Nil);
    }
    list_literal(alloc, items, tail)
}

/// A list literal.
#[tactic(auto, using(crate::proofs::Rows::constants_listed))]
pub fn list_of(
    alloc: Global,
    items: &Vec<ConstantForm>,
    tail: &Option<ConstantForm>,
) -> Result<Literal, AllocError>
    ensures { IfOk result (λ made. made
        ≡ list_of (literals_in items.now.items) (last_in tail.now)) }
{
    let items = constants_of(alloc, items)?;
    match tail {
        None => list_from(alloc, items, None),
        Some(form) => {
            let last = constant_of(alloc, form)?;
            list_from(alloc, items, Some(last))
        }
    }
}

/// A vector literal.
#[tactic(auto, using(crate::proofs::Rows::constants_listed))]
pub fn vector_of(alloc: Global, items: &Vec<ConstantForm>) -> Result<Literal, AllocError>
    ensures { IfOk result (λ made. made ≡ Literal.Vector (literals_in items.now.items)) }
{
    Ok(Literal::Vector(constants_of(alloc, items)?))
}
