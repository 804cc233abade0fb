//! Drafts of statements, of local methods and of unions, made from their parts.

ghost use Rattle.std.specs.Prelude.{◌≡◌, map, option_map, IfOk};
ghost use Rattle.dy_term.specs.Types.{types_of, union, seen_type};
ghost use Rattle.dy_term.specs.Drafts.{cores_of, arms_of, methods_of, clauses_of, catches_of};
ghost use Rattle.dy_term.specs.Drafts.{values, select, for, method, block, let_methods};
ghost use Rattle.dy_term.specs.Drafts.{from_clause, seen_term, seen_item, seen_clause, seen_option};
ghost use Rattle.dy_term.specs.Drafts.{seen_arm, seen_catch, seen_lambda, seen_method, seen_bound};
ghost use Rattle.dy_term.specs.Drafts.{seen_ending};

use crate::draft::{
    DraftArm, DraftBlock, DraftBlockClause, DraftFor, DraftForClause, DraftItem, DraftLambda,
    DraftTerm, DraftType,
};
use crate::term::Limit;
use dy_tree::Token;
use std::alloc::{AllocError, Global};

/// A union of types. No memory is taken.
pub fn union_draft(word: Token, types: Vec<DraftType>) -> DraftType
    ensures { seen_type result ≡ union word (types_of (map seen_type types.items)) }
{
    DraftType::Union(word, types)
}

/// Values together. No memory is taken.
#[tactic(auto, using(crate::proofs::Made::seen_values))]
pub fn values_draft(terms: Vec<DraftTerm>) -> DraftTerm
    ensures { seen_term result ≡ values (cores_of (map seen_term terms.items)) }
{
    DraftTerm::Values(terms)
}

/// A closure.
#[tactic(auto, using(crate::proofs::Made::seen_closure))]
pub fn method_draft(alloc: Global, lambda: DraftLambda) -> Result<DraftTerm, AllocError>
    ensures { IfOk result (λ term. seen_term term ≡ method (seen_lambda lambda)) }
{
    let lambda = Box::new(alloc, lambda)?;
    Ok(DraftTerm::Method(lambda))
}

/// Local methods. No memory is taken.
#[tactic(auto, using(crate::proofs::Made::seen_local))]
pub fn local_draft(methods: Vec<(Token, DraftLambda)>) -> DraftItem
    ensures { seen_item result ≡ let_methods (methods_of (map seen_method methods.items)) }
{
    DraftItem::LetMethods(methods)
}

/// A term in memory of its own.
fn boxed(alloc: Global, term: Option<DraftTerm>) -> Result<Option<Box<DraftTerm>>, AllocError>
    ensures { IfOk result (λ found. option_map (λ kept. kept.value) found ≡ term) }
{
    match term {
        None => Ok(None),
        Some(term) => {
            let term = Box::new(alloc, term)?;
            Ok(Some(term))
        }
    }
}

/// A `select`.
pub fn select_draft(
    alloc: Global,
    value: DraftTerm,
    test: Option<DraftTerm>,
    arms: Vec<DraftArm>,
    otherwise: Option<DraftTerm>,
) -> Result<DraftTerm, AllocError>
    ensures { IfOk result (λ term. seen_term term
        ≡ select (seen_term value) (seen_option test) (arms_of (map seen_arm arms.items))
        (seen_option otherwise)) }
{
    let value = Box::new(alloc, value)?;
    let test = boxed(alloc, test)?;
    let otherwise = boxed(alloc, otherwise)?;
    Ok(DraftTerm::Select(value, test, arms, otherwise))
}

/// A `block`.
pub fn block_draft(
    alloc: Global,
    exit: Option<Token>,
    body: DraftTerm,
    afterwards: Option<DraftTerm>,
    cleanup: Option<DraftTerm>,
    clauses: Vec<DraftBlockClause>,
) -> Result<DraftTerm, AllocError>
    ensures { IfOk result (λ term. seen_term term
        ≡ block exit (seen_term body) (seen_option afterwards) (seen_option cleanup)
        (catches_of (map seen_catch clauses.items))) }
{
    let row = DraftBlock {
        exit,
        body,
        afterwards,
        cleanup,
        clauses,
    };
    let row = Box::new(alloc, row)?;
    Ok(DraftTerm::Block(row))
}

/// A `for`.
#[tactic(auto, using(crate::proofs::Made::seen_for))]
pub fn for_draft(
    alloc: Global,
    clauses: Vec<DraftForClause>,
    test: Option<(bool, DraftTerm)>,
    body: DraftTerm,
    finally: Option<DraftTerm>,
) -> Result<DraftTerm, AllocError>
    ensures { IfOk result (λ term. seen_term term
        ≡ for (clauses_of (map seen_clause clauses.items)) (seen_ending test) (seen_term body)
        (seen_option finally)) }
{
    let row = DraftFor {
        clauses,
        test,
        body,
        finally,
    };
    let row = Box::new(alloc, row)?;
    Ok(DraftTerm::For(row))
}

/// A clause of a `for` over numbers. No memory is taken.
#[tactic(auto, using(crate::proofs::Made::seen_from))]
pub fn from_draft(
    variable: Token,
    declared: DraftType,
    start: DraftTerm,
    limit: Option<(Limit, DraftTerm)>,
    step: Option<DraftTerm>,
) -> DraftForClause
    ensures { seen_clause result
        ≡ from_clause variable (seen_type declared) (seen_term start) (seen_bound limit)
        (seen_option step) }
{
    DraftForClause::From(variable, declared, start, limit, step)
}
