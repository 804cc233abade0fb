//! Operators, elements and members of drafts (DRM 4, "Operators").

ghost use Rattle.std.specs.Prelude.{◌≡◌, [], ◌∷◌, map, codes, IfOk, if◌then◌else◌};
ghost use Rattle.dy_tree.specs.Spelling.{is_spelled};
ghost use Rattle.dy_term.specs.Drafts.{name, and, or, seen_term};
ghost use Rattle.dy_drafts.specs.Shapes.{name_at};
ghost use Rattle.dy_drafts.specs.Parts.{call_named, unary_name};

use crate::names::name_at;
use dy_term::{DraftTerm, and_draft, call_draft, or_draft};
use dy_tree::Token;
use std::alloc::{AllocError, Global};

/// A call of what a name means.
pub fn call_named(
    alloc: Global,
    token: Token,
    arguments: Vec<DraftTerm>,
) -> Result<DraftTerm, AllocError>
    ensures { IfOk result (λ term. seen_term term
        ≡ call_named token (map seen_term arguments.items)) }
{
    call_draft(alloc, DraftTerm::Name(token), arguments)
}

fn call_with_one(alloc: Global, token: Token, first: DraftTerm) -> Result<DraftTerm, AllocError>
    ensures { IfOk result (λ term. seen_term term ≡ call_named token (seen_term first ∷ [])) }
{
    let arguments = vec![in alloc; first]?;
    call_named(alloc, token, arguments)
}

fn call_with_two(
    alloc: Global,
    token: Token,
    first: DraftTerm,
    second: DraftTerm,
) -> Result<DraftTerm, AllocError>
    ensures { IfOk result (λ term. seen_term term
        ≡ call_named token (seen_term first ∷ seen_term second ∷ [])) }
{
    let arguments = vec![in alloc; first, second]?;
    call_named(alloc, token, arguments)
}

/// A binary operator other than `&` and `|`.
pub fn operation(
    alloc: Global,
    left: DraftTerm,
    operator: &Token,
    right: DraftTerm,
) -> Result<DraftTerm, AllocError>
    ensures { IfOk result (λ term. seen_term term
        ≡ call_named operator.now (seen_term left ∷ seen_term right ∷ [])) }
{
    let operator = operator.copy()?;
    call_with_two(alloc, operator, left, right)
}

/// `&` or `|`.
pub fn logical(
    alloc: Global,
    left: DraftTerm,
    operator: &Token,
    right: DraftTerm,
) -> Result<DraftTerm, AllocError>
    ensures { IfOk result (λ term. seen_term term
        ≡ if is_spelled (codes "&") operator.now then and (seen_term left) (seen_term right)
        else or (seen_term left) (seen_term right)) }
{
    if operator.is_spelled(b"&") {
        and_draft(alloc, left, right)
    } else {
        or_draft(alloc, left, right)
    }
}

/// The name that a unary operator calls.
fn unary_name(alloc: Global, operator: &Token) -> Result<Token, AllocError>
    ensures { IfOk result (λ name. name ≡ unary_name operator.now) }
{
    if operator.is_spelled(b"-") {
        name_at(alloc, b"negative", operator)
    } else {
        operator.copy()
    }
}

/// `-` or `~`.
pub fn unary(alloc: Global, operator: &Token, operand: DraftTerm) -> Result<DraftTerm, AllocError>
    ensures { IfOk result (λ term. seen_term term
        ≡ call_named (unary_name operator.now) (seen_term operand ∷ [])) }
{
    let name = unary_name(alloc, operator)?;
    call_with_one(alloc, name, operand)
}

/// `object[index]`, by its bracket.
pub fn element(
    alloc: Global,
    object: DraftTerm,
    opener: &Token,
    index: DraftTerm,
) -> Result<DraftTerm, AllocError>
    ensures { IfOk result (λ term. seen_term term
        ≡ call_named (name_at (codes "element") opener.now)
        (seen_term object ∷ seen_term index ∷ [])) }
{
    let name = name_at(alloc, b"element", opener)?;
    call_with_two(alloc, name, object, index)
}

/// `object.name`
pub fn member(alloc: Global, object: DraftTerm, name: &Token) -> Result<DraftTerm, AllocError>
    ensures { IfOk result (λ term. seen_term term ≡ call_named name.now (seen_term object ∷ [])) }
{
    let name = name.copy()?;
    call_with_one(alloc, name, object)
}
