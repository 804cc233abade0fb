//! Statements of drafts, made from their parts (DRM 7, "Statements").

ghost use Rattle.std.specs.Prelude.{◌≡◌, map, IfOk};
ghost use Rattle.dy_term.specs.Drafts.{loop, seen_term};
ghost use Rattle.dy_drafts.specs.Parts.{false_core, true_core, choose, not_core, limit_of};
ghost use Rattle.dy_drafts.specs.Parts.{first_or_false};

use dy_term::{DraftTerm, Limit, Literal, cond_draft, loop_draft};
use dy_tree::Token;
use std::alloc::{AllocError, Global};

/// `#f`
pub fn false_draft() -> DraftTerm
    ensures { seen_term result ≡ false_core }
{
    DraftTerm::Lit(Literal::Bool(false))
}

/// `#t`
pub fn true_draft() -> DraftTerm
    ensures { seen_term result ≡ true_core }
{
    DraftTerm::Lit(Literal::Bool(true))
}

/// A choice with one test.
pub fn choose(
    alloc: Global,
    test: DraftTerm,
    chosen: DraftTerm,
    other: DraftTerm,
) -> Result<DraftTerm, AllocError>
    ensures { IfOk result (λ term. seen_term term
        ≡ choose (seen_term test) (seen_term chosen) (seen_term other)) }
{
    let branches = vec![in alloc; (test, chosen)]?;
    cond_draft(alloc, branches, other)
}

/// `#f` where the test is true, and else `#t`.
fn negated(alloc: Global, test: DraftTerm) -> Result<DraftTerm, AllocError>
    ensures { IfOk result (λ term. seen_term term ≡ not_core (seen_term test)) }
{
    choose(alloc, test, false_draft(), true_draft())
}

/// `unless (test) body end`
pub fn unless_draft(
    alloc: Global,
    test: DraftTerm,
    body: DraftTerm,
) -> Result<DraftTerm, AllocError>
    ensures { IfOk result (λ term. seen_term term
        ≡ choose (seen_term test) false_core (seen_term body)) }
{
    choose(alloc, test, false_draft(), body)
}

/// `while (test) body end`
pub fn while_draft(alloc: Global, test: DraftTerm, body: DraftTerm) -> Result<DraftTerm, AllocError>
    ensures { IfOk result (λ term. seen_term term ≡ loop (seen_term test) (seen_term body)) }
{
    loop_draft(alloc, test, body)
}

/// `until (test) body end`
pub fn until_draft(alloc: Global, test: DraftTerm, body: DraftTerm) -> Result<DraftTerm, AllocError>
    ensures { IfOk result (λ term. seen_term term
        ≡ loop (not_core (seen_term test)) (seen_term body)) }
{
    let test = negated(alloc, test)?;
    loop_draft(alloc, test, body)
}

/// Which end of the numbers of a `for` a word names.
pub fn limit_of(word: &Token) -> Limit
    ensures { result ≡ limit_of word.now }
{
    if word.is_spelled(b"to") {
        Limit::To
    } else if word.is_spelled(b"above") {
        Limit::Above
    } else {
        Limit::Below
    }
}

/// The first test of an arm, or `#f` where there is none.
pub fn first_or_false(mut tests: Vec<DraftTerm>) -> DraftTerm
    ensures { seen_term result ≡ first_or_false (map seen_term tests.items) }
{
    if tests.is_empty() {
        return false_draft();
    }
    tests.swap_remove(0)
}
