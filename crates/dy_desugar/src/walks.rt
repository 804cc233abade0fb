//! Clauses of a `for`, made from their parts (DRM 7, "for").

ghost use Rattle.std.specs.Prelude.{◌≡◌, IfOk};
ghost use Rattle.dy_term.specs.Types.{integer};
ghost use Rattle.dy_term.specs.Drafts.{then_clause, in_clause, from_clause, seen_term, seen_option};
ghost use Rattle.dy_term.specs.Drafts.{seen_clause, seen_bound};
ghost use Rattle.dy_rules.specs.SeenTypes.{seen_variable};
ghost use Rattle.dy_drafts.specs.Shapes.{declared_or, declared_of};

use dy_drafts::{declared_of, declared_or};
use dy_term::{DraftForClause, DraftTerm, DraftType, Limit, from_draft};
use dy_tree::Variable;
use std::alloc::{AllocError, Global};

/// `variable = first then next`
pub(crate) fn then_clause(
    alloc: Global,
    variable: &Variable,
    first: DraftTerm,
    next: DraftTerm,
) -> Result<DraftForClause, AllocError>
    ensures { IfOk result (λ found. seen_clause found
        ≡ then_clause variable.now.name (declared_of (seen_variable variable.now)) (seen_term first)
        (seen_term next)) }
{
    let name = variable.name.copy()?;
    let declared = declared_of(alloc, variable)?;
    Ok(DraftForClause::Then(name, declared, first, next))
}

/// `variable in collection`
pub(crate) fn in_clause(
    alloc: Global,
    variable: &Variable,
    collection: DraftTerm,
) -> Result<DraftForClause, AllocError>
    ensures { IfOk result (λ found. seen_clause found
        ≡ in_clause variable.now.name (declared_of (seen_variable variable.now))
        (seen_term collection)) }
{
    let name = variable.name.copy()?;
    let declared = declared_of(alloc, variable)?;
    Ok(DraftForClause::In(name, declared, collection))
}

/// `variable from start`, where the numbers end, and what they advance by. They are integers where
/// no type is written.
pub(crate) fn from_clause(
    alloc: Global,
    variable: &Variable,
    start: DraftTerm,
    limit: Option<(Limit, DraftTerm)>,
    step: Option<DraftTerm>,
) -> Result<DraftForClause, AllocError>
    ensures { IfOk result (λ found. seen_clause found
        ≡ from_clause variable.now.name (declared_or integer (seen_variable variable.now).declared)
        (seen_term start) (seen_bound limit) (seen_option step)) }
{
    let name = variable.name.copy()?;
    let declared = declared_or(alloc, DraftType::Integer, &variable.declared)?;
    Ok(from_draft(name, declared, start, limit, step))
}
