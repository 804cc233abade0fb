//! Whether terms are of kinds that have code.
#![tactic(auto, using(crate::proofs::Both::and_assoc, crate::proofs::Both::and_all))]

ghost use Rattle.std.specs.Prelude.{◌≡◌, ◌&&◌, map, option_map};
ghost use Rattle.dy_lowered.specs.Readiness.{all_ready, held_ready};
ghost use Rattle.dy_lowering_law.specs.Ready.{is_empty};
ghost use Rattle.dy_lowering_whole.specs.Lowered.{second_lowered};
ghost use Rattle.dy_lower_kinds.specs.Kinds.{has_code, item_has_code, clause_has_code};
ghost use Rattle.dy_lower_kinds.specs.Kinds.{for_has_code, lambda_has_code};

use dy_base::{Boxed, Items};
use dy_term::{DyType, ForClause, ForRow, Item, Lambda, Limit, Term};

/// Whether both are so.
pub(crate) fn both(left: bool, right: bool) -> bool
    ensures { result ≡ left && right }
{
    left && right
}

/// Whether there are no keywords.
fn is_empty(keywords: &Items<(DyType, Term)>) -> bool
    ensures { result ≡ is_empty keywords.now }
{
    match keywords.as_slice() {
        [] => true,
        [_, ..] => false,
    }
}

/// Whether a term is of a kind that has code, and each part of it.
#[cycle(kinds)]
pub(crate) fn has_code(term: &Term) -> bool
    ensures { result ≡ has_code term.now }
{
    match term {
        Term::Lit(_) | Term::Local(_) | Term::Global(_) => true,
        Term::ClassName(_) | Term::GenericName(_) => true,
        Term::SetLocal(_, value) => has_code(value),
        Term::SetGlobal(_, value) => has_code(value),
        Term::Call(function, arguments) => both(has_code(function), have_code(arguments)),
        Term::Site(_, arguments) => have_code(arguments),
        Term::Op(_, arguments) => have_code(arguments),
        Term::Cond(branches, last) => both(branches_have_code(branches), has_code(last)),
        Term::And(first, other) => both(has_code(first), has_code(other)),
        Term::Or(first, other) => both(has_code(first), has_code(other)),
        Term::Loop(test, inner) => both(has_code(test), has_code(inner)),
        Term::Select(value, test, arms, last) => {
            let behind = both(arms_have_code(arms), boxed_has_code(last));
            both(has_code(value), both(boxed_has_code(test), behind))
        }
        Term::Body(items) => items_have_code(items),
        Term::For(row) => for_has_code(row),
        Term::Method(lambda) => lambda_has_code(lambda),
        Term::Block(_) | Term::Next(None) | Term::Next(Some(_)) => false,
    }
}

#[cycle(kinds)]
fn have_code(terms: &Items<Term>) -> bool
    ensures { result ≡ all_ready (map has_code terms.now) }
{
    let mut all = true;
    for term in terms.as_slice() {
        all = both(all, has_code(term));
    }
    all
}

#[cycle(kinds)]
fn boxed_has_code(term: &Option<Boxed<Term>>) -> bool
    ensures { result ≡ held_ready (option_map has_code term.now) }
{
    match term {
        None => true,
        Some(term) => has_code(term),
    }
}

#[cycle(kinds)]
fn option_has_code(term: &Option<Term>) -> bool
    ensures { result ≡ held_ready (option_map has_code term.now) }
{
    match term {
        None => true,
        Some(term) => has_code(term),
    }
}

#[cycle(kinds)]
fn branches_have_code(branches: &Items<(Term, Term)>) -> bool
    ensures { result ≡ all_ready (map (λ b. has_code b.0 && has_code b.1) branches.now) }
{
    let mut all = true;
    for (test, term) in branches.as_slice() {
        all = both(all, both(has_code(test), has_code(term)));
    }
    all
}

#[cycle(kinds)]
fn arms_have_code(arms: &Items<(Items<Term>, Term)>) -> bool
    ensures { result
        ≡ all_ready (map (λ a. all_ready (map has_code a.0) && has_code a.1) arms.now) }
{
    let mut all = true;
    for arm in arms.as_slice() {
        all = both(all, arm_has_code(arm));
    }
    all
}

#[cycle(kinds)]
fn arm_has_code(arm: &(Items<Term>, Term)) -> bool
    ensures { result ≡ all_ready (map has_code arm.now.0) && has_code arm.now.1 }
{
    both(have_code(&arm.0), has_code(&arm.1))
}

#[cycle(kinds)]
fn items_have_code(items: &Items<Item>) -> bool
    ensures { result ≡ all_ready (map item_has_code items.now) }
{
    let mut all = true;
    for item in items.as_slice() {
        all = both(all, item_has_code(item));
    }
    all
}

#[cycle(kinds)]
fn item_has_code(item: &Item) -> bool
    ensures { result ≡ item_has_code item.now }
{
    match item {
        Item::Run(term) => has_code(term),
        Item::Let(_, _, term) => has_code(term),
        Item::LetMethods(methods) => methods_have_code(methods),
        Item::Handler(_, _) => false,
    }
}

#[cycle(kinds)]
fn methods_have_code(methods: &Items<(u32, Lambda)>) -> bool
    ensures { result ≡ all_ready (map (λ m. lambda_has_code m.1) methods.now) }
{
    let mut all = true;
    for (_, lambda) in methods.as_slice() {
        all = both(all, lambda_has_code(lambda));
    }
    all
}

#[cycle(kinds)]
fn for_has_code(row: &ForRow) -> bool
    ensures { result ≡ for_has_code row.now }
{
    let behind = both(has_code(&row.body), option_has_code(&row.finally));
    both(
        clauses_have_code(&row.clauses),
        both(test_has_code(&row.test), behind),
    )
}

#[cycle(kinds)]
fn test_has_code(test: &Option<(bool, Term)>) -> bool
    ensures { result ≡ second_lowered (option_map (λ t. (t.0, has_code t.1)) test.now) }
{
    match test {
        None => true,
        Some((_, test)) => has_code(test),
    }
}

#[cycle(kinds)]
fn limit_has_code(limit: &Option<(Limit, Term)>) -> bool
    ensures { result ≡ second_lowered (option_map (λ t. (t.0, has_code t.1)) limit.now) }
{
    match limit {
        None => true,
        Some((_, bound)) => has_code(bound),
    }
}

#[cycle(kinds)]
fn clauses_have_code(clauses: &Items<ForClause>) -> bool
    ensures { result ≡ all_ready (map clause_has_code clauses.now) }
{
    let mut all = true;
    for clause in clauses.as_slice() {
        all = both(all, clause_has_code(clause));
    }
    all
}

#[cycle(kinds)]
fn clause_has_code(clause: &ForClause) -> bool
    ensures { result ≡ clause_has_code clause.now }
{
    match clause {
        ForClause::Then(_, _, first, next) => both(has_code(first), has_code(next)),
        ForClause::In(_, _, _) => false,
        ForClause::From(_, _, start, limit, step) => {
            both(
                has_code(start),
                both(limit_has_code(limit), option_has_code(step)),
            )
        }
    }
}

#[cycle(kinds)]
pub(crate) fn lambda_has_code(lambda: &Lambda) -> bool
    ensures { result ≡ lambda_has_code lambda.now }
{
    both(is_empty(&lambda.keywords), has_code(&lambda.body))
}
