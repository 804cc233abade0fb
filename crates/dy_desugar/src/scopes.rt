//! A `block` and its clauses (DRM 7, "block").

ghost use Rattle.std.specs.Prelude.{◌≡◌, map, option_map, IfOk};
ghost use Rattle.dy_term.specs.Drafts.{block, catches_of, seen_term, seen_option, seen_catch};
ghost use Rattle.dy_rules.specs.SeenForms.{seen_clause};
ghost use Rattle.dy_desugar.specs.Lists.{block_clauses, own_afterwards, own_cleanup, own_exception};
ghost use Rattle.dy_desugar.specs.Table as table;

use crate::bodies::body_of;
use dy_drafts::{copy_maybe, type_of};
use dy_term::{DraftBlockClause, DraftTerm, block_draft};
use dy_tree::{BlockClause, Token};
use std::alloc::{AllocError, Global};

/// A `block`, made from its parts.
pub(crate) fn block_from(
    alloc: Global,
    exit: &Option<Token>,
    body: DraftTerm,
    afterwards: Option<DraftTerm>,
    cleanup: Option<DraftTerm>,
    catches: Vec<DraftBlockClause>,
) -> Result<DraftTerm, AllocError>
    ensures { IfOk result (λ term. seen_term term
        ≡ block exit.now (seen_term body) (seen_option afterwards) (seen_option cleanup)
        (catches_of (map seen_catch catches.items))) }
{
    let exit = copy_maybe(exit)?;
    block_draft(alloc, exit, body, afterwards, cleanup, catches)
}

/// What runs after a normal end of a block's body.
#[cycle(terms)]
pub(crate) fn afterwards_of(
    alloc: Global,
    clauses: &Vec<BlockClause>,
) -> Result<Option<DraftTerm>, AllocError>
    ensures { IfOk result (λ term. seen_option term
        ≡ table.afterwards_of (block_clauses clauses.now.items)) }
{
    for clause in clauses {
        if let Some(term) = afterwards_in(alloc, clause)? {
            return Ok(Some(term));
        }
    }
    Ok(None)
}

/// What runs after a normal end of the body, if the clause says so.
#[cycle(terms)]
#[tactic(auto, using(crate::proofs::Clauses::at_afterwards))]
fn afterwards_in(alloc: Global, clause: &BlockClause) -> Result<Option<DraftTerm>, AllocError>
    ensures { IfOk result (λ term. seen_option term ≡ own_afterwards (seen_clause clause.now)) }
{
    match clause {
        BlockClause::Afterwards { body } => Ok(Some(body_of(alloc, body)?)),
        _ => Ok(None),
    }
}

/// What runs on every end of a block.
#[cycle(terms)]
pub(crate) fn cleanup_of(
    alloc: Global,
    clauses: &Vec<BlockClause>,
) -> Result<Option<DraftTerm>, AllocError>
    ensures { IfOk result (λ term. seen_option term
        ≡ table.cleanup_of (block_clauses clauses.now.items)) }
{
    for clause in clauses {
        if let Some(term) = cleanup_in(alloc, clause)? {
            return Ok(Some(term));
        }
    }
    Ok(None)
}

/// What runs on every end, if the clause says so.
#[cycle(terms)]
#[tactic(auto, using(crate::proofs::Clauses::at_cleanup))]
fn cleanup_in(alloc: Global, clause: &BlockClause) -> Result<Option<DraftTerm>, AllocError>
    ensures { IfOk result (λ term. seen_option term ≡ own_cleanup (seen_clause clause.now)) }
{
    match clause {
        BlockClause::Cleanup { body } => Ok(Some(body_of(alloc, body)?)),
        _ => Ok(None),
    }
}

/// The `exception` clauses of a block.
#[cycle(terms)]
pub(crate) fn exceptions_of(
    alloc: Global,
    clauses: &Vec<BlockClause>,
) -> Result<Vec<DraftBlockClause>, AllocError>
    ensures { IfOk result (λ found. map seen_catch found.items
        ≡ table.exceptions_of (block_clauses clauses.now.items)) }
{
    let mut found = Vec::new(alloc);
    for clause in clauses {
        if let Some(caught) = exception_in(alloc, clause)? {
            found.push(caught)?;
        }
    }
    Ok(found)
}

/// What an `exception` clause says.
#[cycle(terms)]
fn exception_in(alloc: Global, clause: &BlockClause) -> Result<Option<DraftBlockClause>, AllocError>
    ensures { IfOk result (λ found. option_map seen_catch found
        ≡ own_exception (seen_clause clause.now)) }
{
    match clause {
        BlockClause::Exception {
            variable,
            condition,
            body,
        } => {
            let variable = copy_maybe(variable)?;
            let condition = type_of(alloc, condition)?;
            let body = body_of(alloc, body)?;
            Ok(Some(DraftBlockClause {
                variable,
                condition,
                body,
            }))
        }
        _ => Ok(None),
    }
}
