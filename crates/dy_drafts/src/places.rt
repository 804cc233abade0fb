//! Assignments to calls, and values that are handed on (DRM 4, "Assignment").

ghost use Rattle.std.specs.Prelude.{◌≡◌, ◌<◌, ◌^◌, ◌∷◌, [], ◌++◌, map, codes, OnOk, IfOk};
ghost use Rattle.dy_term.specs.Types.{seen_typed};
ghost use Rattle.dy_term.specs.Drafts.{hidden, seen_term, seen_item};
ghost use Rattle.dy_drafts.specs.Shapes.{name_at};
ghost use Rattle.dy_drafts.specs.Parts.{call_named, hidden_terms, hidden_locals, hide, hide_from};
ghost use Rattle.dy_drafts.specs.Parts.{setting, setter_at, with_rest};

use crate::names::{name_at, setter_at};
use crate::operators::call_named;
use dy_term::{DraftItem, DraftTerm, DraftType, Local, body_draft, values_draft};
use dy_tree::Token;
use std::alloc::{AllocError, Global};

/// Adds the hidden locals below a number.
fn push_hidden(terms: &mut Vec<DraftTerm>, count: usize) -> Result<(), AllocError>
    ensures { OnOk result (map seen_term terms.new.items
        ≡ map seen_term terms.old.items ++ hidden_terms count) }
{
    for number in 0..count {
        terms.push(DraftTerm::Hidden(number))?;
    }
    Ok(())
}

/// The hidden locals below a number, as they are bound.
fn hidden_locals(alloc: Global, count: usize) -> Result<Vec<(Local, DraftType)>, AllocError>
    ensures { IfOk result (λ locals. map seen_typed locals.items ≡ hidden_locals count) }
{
    let mut locals = Vec::new(alloc);
    for number in 0..count {
        locals.push((Local::Hidden(number), DraftType::Object))?;
    }
    Ok(locals)
}

/// A hidden local that takes the value of a term.
fn hide(alloc: Global, number: usize, term: DraftTerm) -> Result<DraftItem, AllocError>
    ensures { IfOk result (λ item. seen_item item ≡ hide number (seen_term term)) }
{
    let locals = vec![in alloc; (Local::Hidden(number), DraftType::Object)]?;
    Ok(DraftItem::Let(locals, None, term))
}

/// Hidden locals that take the values of terms.
fn hide_all(alloc: Global, terms: Vec<DraftTerm>) -> Result<Vec<DraftItem>, AllocError>
    ensures { IfOk result (λ items. map seen_item items.items
        ≡ hide_from 0 (map seen_term terms.items)) }
{
    let mut items = Vec::new(alloc);
    for term in terms {
        let item = hide(alloc, items.len(), term)?;
        items.push(item)?;
    }
    Ok(items)
}

/// A call of a setter on the hidden locals below a number, and that of the number, which is the new
/// value.
fn call_setter(alloc: Global, setter: Token, count: usize) -> Result<DraftTerm, AllocError>
    ensures { IfOk result (λ term. seen_term term
        ≡ call_named setter (hidden count ∷ hidden_terms count)) }
{
    let mut arguments = vec![in alloc; DraftTerm::Hidden(count)]?;
    push_hidden(&mut arguments, count)?;
    call_named(alloc, setter, arguments)
}

/// An assignment by a setter, from the operands of the place and the new value.
pub fn setting(
    alloc: Global,
    setter: Token,
    operands: Vec<DraftTerm>,
    value: DraftTerm,
) -> Result<DraftTerm, AllocError>
    ensures { IfOk result (λ term. seen_term term
        ≡ setting setter (map seen_term operands.items) (seen_term value)) }
{
    let count = operands.len();
    let mut items = hide_all(alloc, operands)?;
    items.push(hide(alloc, count, value)?)?;
    items.push(DraftItem::Run(call_setter(alloc, setter, count)?))?;
    items.push(DraftItem::Run(DraftTerm::Hidden(count)))?;
    Ok(body_draft(items))
}

/// `object[index] := value`, by its bracket.
pub fn set_element(
    alloc: Global,
    object: DraftTerm,
    opener: &Token,
    index: DraftTerm,
    value: DraftTerm,
) -> Result<DraftTerm, AllocError>
    ensures { IfOk result (λ term. seen_term term
        ≡ setting (name_at (codes "element-setter") opener.now)
        (seen_term object ∷ seen_term index ∷ []) (seen_term value)) }
{
    let setter = name_at(alloc, b"element-setter", opener)?;
    let operands = vec![in alloc; object, index]?;
    setting(alloc, setter, operands, value)
}

/// `object.name := value`
pub fn set_member(
    alloc: Global,
    object: DraftTerm,
    name: &Token,
    value: DraftTerm,
) -> Result<DraftTerm, AllocError>
    ensures { IfOk result (λ term. seen_term term
        ≡ setting (setter_at name.now) (seen_term object ∷ []) (seen_term value)) }
{
    let setter = setter_at(alloc, name)?;
    let operands = vec![in alloc; object]?;
    setting(alloc, setter, operands, value)
}

/// The first values of a term, so many, and then one vector of the others. They are fewer than
/// 2^63, as the variables of any list are.
pub fn with_rest(alloc: Global, count: usize, term: DraftTerm) -> Result<DraftTerm, AllocError>
    requires { count < 2 ^ 63 }
    ensures { IfOk result (λ found. seen_term found ≡ with_rest count (seen_term term)) }
{
    let locals = hidden_locals(alloc, count)?;
    let mut terms = Vec::new(alloc);
    push_hidden(&mut terms, count + 1)?;
    let items = vec![in alloc;
        DraftItem::Let(locals, Some(Local::Hidden(count)), term),
        DraftItem::Run(values_draft(terms)),
    ]?;
    Ok(body_draft(items))
}
