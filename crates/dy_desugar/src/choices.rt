//! What statements choose among (DRM 7, "Conditionals").

ghost use Rattle.std.specs.Prelude.{◌≡◌, ◌∷◌, map, IfOk};
ghost use Rattle.dy_term.specs.Drafts.{seen_term, seen_pair, seen_arm, seen_option};
ghost use Rattle.dy_desugar.specs.Lists.{tree_core, alternative_core, case_core, arm_core};
ghost use Rattle.dy_desugar.specs.Lists.{maybe_boxed};

use crate::bodies::body_of;
use crate::expressions::term_of;
use dy_drafts::first_or_false;
use dy_term::{DraftArm, DraftTerm};
use dy_tree::{Alternative, Arm, Expression};
use std::alloc::{AllocError, Global};

/// The tests of an `if`, each with its body.
#[cycle(terms)]
pub(crate) fn branches_of(
    alloc: Global,
    alternatives: &Vec<Alternative>,
    test: DraftTerm,
    body: DraftTerm,
) -> Result<Vec<(DraftTerm, DraftTerm)>, AllocError>
    ensures { IfOk result (λ branches. map seen_pair branches.items
        ≡ (seen_term test, seen_term body) ∷ map alternative_core alternatives.now.items) }
{
    let mut branches = vec![in alloc; (test, body)]?;
    for alternative in alternatives {
        let test = term_of(alloc, &alternative.test)?;
        let body = body_of(alloc, &alternative.body)?;
        branches.push((test, body))?;
    }
    Ok(branches)
}

/// The arms of a `case`, each a test with its body.
#[cycle(terms)]
pub(crate) fn cases_of(
    alloc: Global,
    arms: &Vec<Arm>,
) -> Result<Vec<(DraftTerm, DraftTerm)>, AllocError>
    ensures { IfOk result (λ cases. map seen_pair cases.items ≡ map case_core arms.now.items) }
{
    let mut cases = Vec::new(alloc);
    for arm in arms {
        let tests = tests_of(alloc, &arm.tests)?;
        let body = body_of(alloc, &arm.body)?;
        cases.push((first_or_false(tests), body))?;
    }
    Ok(cases)
}

/// The terms of the tests of an arm.
#[cycle(terms)]
fn tests_of(alloc: Global, tests: &Vec<Expression>) -> Result<Vec<DraftTerm>, AllocError>
    ensures { IfOk result (λ terms. map seen_term terms.items ≡ map tree_core tests.now.items) }
{
    let mut terms = Vec::new(alloc);
    for test in tests {
        terms.push(term_of(alloc, test)?)?;
    }
    Ok(terms)
}

/// The arms of a `select`.
#[cycle(terms)]
pub(crate) fn arms_of(alloc: Global, arms: &Vec<Arm>) -> Result<Vec<DraftArm>, AllocError>
    ensures { IfOk result (λ found. map seen_arm found.items ≡ map arm_core arms.now.items) }
{
    let mut found = Vec::new(alloc);
    for arm in arms {
        let values = tests_of(alloc, &arm.tests)?;
        let body = body_of(alloc, &arm.body)?;
        found.push(DraftArm { values, body })?;
    }
    Ok(found)
}

/// The term of what a `select` tests by, if it is written.
#[cycle(terms)]
pub(crate) fn selector_of(
    alloc: Global,
    test: &Option<Box<Expression>>,
) -> Result<Option<DraftTerm>, AllocError>
    ensures { IfOk result (λ term. seen_option term ≡ maybe_boxed test.now) }
{
    match test {
        None => Ok(None),
        Some(test) => Ok(Some(term_of(alloc, test)?)),
    }
}
