//! Bodies and their items (DRM 4, "Local binding"; DRM 7, "begin").

ghost use Rattle.std.specs.Prelude.{◌≡◌, map, IfOk};
ghost use Rattle.dy_term.specs.Drafts.{seen_term, seen_item, seen_option};
ghost use Rattle.dy_desugar.specs.Lists.{item_core, body_core, maybe_body, given_or_false};

use crate::expressions::term_of;
use crate::methods::methods_of;
use dy_drafts::{false_draft, locals_of, rest_of, type_of};
use dy_term::{DraftItem, DraftTerm, body_draft, local_draft};
use dy_tree::Item;
use std::alloc::{AllocError, Global};

/// The term of a body.
#[cycle(terms)]
pub fn body_of(alloc: Global, body: &Vec<Item>) -> Result<DraftTerm, AllocError>
    ensures { IfOk result (λ term. seen_term term ≡ body_core body.now.items) }
{
    let mut items = Vec::new(alloc);
    for item in body {
        items.push(item_of(alloc, item)?)?;
    }
    Ok(body_draft(items))
}

/// The term of a body that may be left out.
#[cycle(terms)]
pub(crate) fn maybe_body_of(
    alloc: Global,
    body: &Option<Vec<Item>>,
) -> Result<Option<DraftTerm>, AllocError>
    ensures { IfOk result (λ term. seen_option term ≡ maybe_body body.now) }
{
    match body {
        None => Ok(None),
        Some(body) => Ok(Some(body_of(alloc, body)?)),
    }
}

/// The term of what may be left out, and `#f` where it is.
pub(crate) fn or_false(term: Option<DraftTerm>) -> DraftTerm
    ensures { seen_term result ≡ given_or_false (seen_option term) }
{
    match term {
        None => false_draft(),
        Some(term) => term,
    }
}

/// An item of a body.
#[cycle(terms)]
fn item_of(alloc: Global, item: &Item) -> Result<DraftItem, AllocError>
    ensures { IfOk result (λ draft. seen_item draft ≡ item_core item.now) }
{
    match item {
        Item::Let { target, value, .. } => {
            let locals = locals_of(alloc, target)?;
            let rest = rest_of(target)?;
            Ok(DraftItem::Let(locals, rest, term_of(alloc, value)?))
        }
        Item::Handler {
            condition,
            handler,
            ..
        } => {
            let condition = type_of(alloc, condition)?;
            Ok(DraftItem::Handler(condition, term_of(alloc, handler)?))
        }
        Item::Local { methods, .. } => {
            let methods = methods_of(alloc, methods)?;
            Ok(local_draft(methods))
        }
        Item::Expression(expression) => Ok(DraftItem::Run(term_of(alloc, expression)?)),
    }
}
