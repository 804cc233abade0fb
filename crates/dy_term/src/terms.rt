//! Drafts of terms, made from their parts.

ghost use Rattle.std.specs.Prelude.{◌≡◌, map, IfOk};
ghost use Rattle.dy_term.specs.Drafts.{cores_of, choice_of, items_of, call, cond, and, or, set};
ghost use Rattle.dy_term.specs.Drafts.{no_place, body, loop, seen_term, seen_pair, seen_item};

use crate::draft::{DraftItem, DraftTerm};
use dy_tree::Token;
use std::alloc::{AllocError, Global};

/// A call.
pub fn call_draft(
    alloc: Global,
    function: DraftTerm,
    arguments: Vec<DraftTerm>,
) -> Result<DraftTerm, AllocError>
    ensures { IfOk result (λ term. seen_term term
        ≡ call (seen_term function) (cores_of (map seen_term arguments.items))) }
{
    let function = Box::new(alloc, function)?;
    Ok(DraftTerm::Call(function, arguments))
}

/// A choice.
pub fn cond_draft(
    alloc: Global,
    branches: Vec<(DraftTerm, DraftTerm)>,
    last: DraftTerm,
) -> Result<DraftTerm, AllocError>
    ensures { IfOk result (λ term. seen_term term
        ≡ cond (choice_of (map seen_pair branches.items) (seen_term last))) }
{
    let last = Box::new(alloc, last)?;
    Ok(DraftTerm::Cond(branches, last))
}

/// A body. No memory is taken.
pub fn body_draft(items: Vec<DraftItem>) -> DraftTerm
    ensures { seen_term result ≡ body (items_of (map seen_item items.items)) }
{
    DraftTerm::Body(items)
}

/// `&`
pub fn and_draft(alloc: Global, left: DraftTerm, right: DraftTerm) -> Result<DraftTerm, AllocError>
    ensures { IfOk result (λ term. seen_term term ≡ and (seen_term left) (seen_term right)) }
{
    Ok(DraftTerm::And(Box::new(alloc, left)?, Box::new(alloc, right)?))
}

/// `|`
pub fn or_draft(alloc: Global, left: DraftTerm, right: DraftTerm) -> Result<DraftTerm, AllocError>
    ensures { IfOk result (λ term. seen_term term ≡ or (seen_term left) (seen_term right)) }
{
    Ok(DraftTerm::Or(Box::new(alloc, left)?, Box::new(alloc, right)?))
}

/// A loop.
pub fn loop_draft(alloc: Global, test: DraftTerm, inner: DraftTerm) -> Result<DraftTerm, AllocError>
    ensures { IfOk result (λ term. seen_term term ≡ loop (seen_term test) (seen_term inner)) }
{
    Ok(DraftTerm::Loop(Box::new(alloc, test)?, Box::new(alloc, inner)?))
}

/// An assignment to a name.
pub fn set_draft(alloc: Global, token: Token, value: DraftTerm) -> Result<DraftTerm, AllocError>
    ensures { IfOk result (λ term. seen_term term ≡ set token (seen_term value)) }
{
    Ok(DraftTerm::Set(token, Box::new(alloc, value)?))
}

/// An assignment to what is no place.
pub fn no_place_draft(
    alloc: Global,
    token: Token,
    place: DraftTerm,
    value: DraftTerm,
) -> Result<DraftTerm, AllocError>
    ensures { IfOk result (λ term. seen_term term
        ≡ no_place token (seen_term place) (seen_term value)) }
{
    Ok(DraftTerm::NoPlace(token, Box::new(alloc, place)?, Box::new(alloc, value)?))
}
