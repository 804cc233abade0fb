//! Statements as terms of the core (DRM 7, "Statements").

ghost use Rattle.std.specs.Prelude.{◌≡◌, IfOk};
ghost use Rattle.dy_term.specs.Drafts.{seen_term};
ghost use Rattle.dy_rules.specs.SeenForms.{seen_statement};
ghost use Rattle.dy_desugar.specs.Table as table;

use crate::bodies::{body_of, maybe_body_of, or_false};
use crate::choices::{arms_of, branches_of, cases_of, selector_of};
use crate::expressions::term_of;
use crate::methods::{defaults_of, lambda_from};
use crate::scopes::{afterwards_of, block_from, cleanup_of, exceptions_of};
use crate::turns::{clauses_of, stop_of};
use dy_drafts::{unless_draft, until_draft, while_draft};
use dy_term::{DraftTerm, cond_draft, for_draft, method_draft, select_draft};
use dy_tree::{Guard, Statement};
use std::alloc::{AllocError, Global};

/// The term of a statement.
#[cycle(terms)]
pub(crate) fn statement_of(alloc: Global, statement: &Statement) -> Result<DraftTerm, AllocError>
    ensures { IfOk result (λ term. seen_term term ≡ table.core_of (seen_statement statement.now)) }
{
    match statement {
        Statement::Begin { body, .. } => body_of(alloc, body),
        Statement::Method {
            parameters,
            body,
            ..
        } => {
            let defaults = defaults_of(alloc, parameters)?;
            let body = body_of(alloc, body)?;
            let lambda = lambda_from(alloc, parameters, defaults, body)?;
            method_draft(alloc, lambda)
        }
        Statement::If {
            test,
            body,
            alternatives,
            otherwise,
            ..
        } => {
            let test = term_of(alloc, test)?;
            let body = body_of(alloc, body)?;
            let branches = branches_of(alloc, alternatives, test, body)?;
            let last = maybe_body_of(alloc, otherwise)?;
            cond_draft(alloc, branches, or_false(last))
        }
        Statement::Guarded {
            guard,
            test,
            body,
            ..
        } => {
            let test = term_of(alloc, test)?;
            let body = body_of(alloc, body)?;
            guarded_of(alloc, *guard, test, body)
        }
        Statement::Case {
            arms,
            otherwise,
            ..
        } => {
            let branches = cases_of(alloc, arms)?;
            let last = maybe_body_of(alloc, otherwise)?;
            cond_draft(alloc, branches, or_false(last))
        }
        Statement::Select {
            value,
            test,
            arms,
            otherwise,
            ..
        } => {
            let value = term_of(alloc, value)?;
            let test = selector_of(alloc, test)?;
            let arms = arms_of(alloc, arms)?;
            let last = maybe_body_of(alloc, otherwise)?;
            select_draft(alloc, value, test, arms, last)
        }
        Statement::Block {
            exit,
            body,
            clauses,
            ..
        } => {
            let body = body_of(alloc, body)?;
            let afterwards = afterwards_of(alloc, clauses)?;
            let cleanup = cleanup_of(alloc, clauses)?;
            let catches = exceptions_of(alloc, clauses)?;
            block_from(alloc, exit, body, afterwards, cleanup, catches)
        }
        Statement::For {
            clauses,
            stop,
            body,
            finally,
            ..
        } => {
            let clauses = clauses_of(alloc, clauses)?;
            let test = stop_of(alloc, stop)?;
            let body = body_of(alloc, body)?;
            let finally = maybe_body_of(alloc, finally)?;
            for_draft(alloc, clauses, test, body, finally)
        }
    }
}

/// `unless`, `while` or `until`, from the terms of its test and of its body.
fn guarded_of(
    alloc: Global,
    guard: Guard,
    test: DraftTerm,
    body: DraftTerm,
) -> Result<DraftTerm, AllocError>
    ensures { IfOk result (λ term. seen_term term
        ≡ table.guarded_core guard (seen_term test) (seen_term body)) }
{
    match guard {
        Guard::Unless => unless_draft(alloc, test, body),
        Guard::While => while_draft(alloc, test, body),
        Guard::Until => until_draft(alloc, test, body),
    }
}
