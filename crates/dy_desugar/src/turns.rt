//! The clauses of a `for`, and the test that ends it (DRM 7, "for").

ghost use Rattle.std.specs.Prelude.{◌≡◌, map, IfOk};
ghost use Rattle.dy_term.specs.Drafts.{seen_clause, seen_bound, seen_ending};
ghost use Rattle.dy_desugar.specs.Lists.{for_clause_core, bound_core, stop_core};

use crate::expressions::{maybe_term_of, term_of};
use crate::walks::{from_clause, in_clause, then_clause};
use dy_drafts::limit_of;
use dy_term::{DraftForClause, DraftTerm};
use dy_tree::{ForClause, Limit, Stop};
use std::alloc::{AllocError, Global};

/// The clauses of a `for`.
#[cycle(terms)]
pub(crate) fn clauses_of(
    alloc: Global,
    clauses: &Vec<ForClause>,
) -> Result<Vec<DraftForClause>, AllocError>
    ensures { IfOk result (λ found. map seen_clause found.items
        ≡ map for_clause_core clauses.now.items) }
{
    let mut found = Vec::new(alloc);
    for clause in clauses {
        found.push(clause_of(alloc, clause)?)?;
    }
    Ok(found)
}

/// A clause of a `for`.
#[cycle(terms)]
fn clause_of(alloc: Global, clause: &ForClause) -> Result<DraftForClause, AllocError>
    ensures { IfOk result (λ found. seen_clause found ≡ for_clause_core clause.now) }
{
    match clause {
        ForClause::Then {
            variable,
            first,
            next,
        } => {
            let first = term_of(alloc, first)?;
            let next = term_of(alloc, next)?;
            then_clause(alloc, variable, first, next)
        }
        ForClause::In {
            variable,
            collection,
        } => {
            let collection = term_of(alloc, collection)?;
            in_clause(alloc, variable, collection)
        }
        ForClause::From {
            variable,
            start,
            limit,
            step,
        } => {
            let start = term_of(alloc, start)?;
            let limit = bound_of(alloc, limit)?;
            let step = maybe_term_of(alloc, step)?;
            from_clause(alloc, variable, start, limit, step)
        }
    }
}

/// Where the numbers of a `for` end, if it is written.
#[cycle(terms)]
fn bound_of(
    alloc: Global,
    limit: &Option<Limit>,
) -> Result<Option<(dy_term::Limit, DraftTerm)>, AllocError>
    ensures { IfOk result (λ found. seen_bound found ≡ bound_core limit.now) }
{
    match limit {
        None => Ok(None),
        Some(limit) => {
            let bound = term_of(alloc, &limit.bound)?;
            Ok(Some((limit_of(&limit.word), bound)))
        }
    }
}

/// The test that ends a `for`, and whether it does so where it is true, if it is written.
#[cycle(terms)]
pub(crate) fn stop_of(
    alloc: Global,
    stop: &Option<Box<Stop>>,
) -> Result<Option<(bool, DraftTerm)>, AllocError>
    ensures { IfOk result (λ found. seen_ending found ≡ stop_core stop.now) }
{
    match stop {
        None => Ok(None),
        Some(stop) => {
            let test = term_of(alloc, &stop.test)?;
            Ok(Some((stop.keyword.is_spelled(b"until"), test)))
        }
    }
}
