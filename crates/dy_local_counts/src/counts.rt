//! The number that comes next behind the locals of a term.
#![tactic(auto, using(crate::proofs::Greatest::max_assoc, crate::proofs::Greatest::max_none))]

ghost use Rattle.std.specs.Prelude.{◌≡◌, ◌+◌, max, map, option_map};
ghost use Rattle.dy_meaning.specs.Numbers.{greatest, held, behind, second, numbers_in};
ghost use Rattle.dy_meaning.specs.Numbers.{numbers_in_item, numbers_in_clause, numbers_in_block};
ghost use Rattle.dy_meaning.specs.Numbers.{numbers_in_for, numbers_in_lambda};

use dy_base::{Boxed, Items};
use dy_term::{BlockRow, DyType, ForClause, ForRow, Item, Lambda, Limit, Term};

/// The number that comes next behind the locals that a term binds.
#[cycle(counts)]
pub fn numbers_in(term: &Term) -> u64
    ensures { result ≡ numbers_in term.now }
{
    match term {
        Term::Lit(_) | Term::Local(_) | Term::Global(_) => 0,
        Term::ClassName(_) | Term::GenericName(_) | Term::Next(None) => 0,
        Term::SetLocal(_, value) => numbers_in(value),
        Term::SetGlobal(_, value) => numbers_in(value),
        Term::Call(function, arguments) => numbers_in(function).max(greatest(arguments)),
        Term::Site(_, arguments) => greatest(arguments),
        Term::Op(_, arguments) => greatest(arguments),
        Term::Next(Some(arguments)) => greatest(arguments),
        Term::Cond(branches, last) => in_branches(branches).max(numbers_in(last)),
        Term::And(first, other) => numbers_in(first).max(numbers_in(other)),
        Term::Or(first, other) => numbers_in(first).max(numbers_in(other)),
        Term::Loop(test, inner) => numbers_in(test).max(numbers_in(inner)),
        Term::Select(value, test, arms, last) => {
            let behind = in_arms(arms).max(in_boxed(last));
            numbers_in(value).max(in_boxed(test).max(behind))
        }
        Term::Body(items) => in_items(items),
        Term::For(row) => in_for(row),
        Term::Method(lambda) => in_lambda(lambda),
        Term::Block(row) => in_block(row),
    }
}

#[cycle(counts)]
fn greatest(terms: &Items<Term>) -> u64
    ensures { result ≡ greatest (map numbers_in terms.now) }
{
    let mut most = 0;
    for term in terms.as_slice() {
        most = most.max(numbers_in(term));
    }
    most
}

#[cycle(counts)]
fn in_boxed(term: &Option<Boxed<Term>>) -> u64
    ensures { result ≡ held (option_map numbers_in term.now) }
{
    match term {
        None => 0,
        Some(term) => numbers_in(term),
    }
}

#[cycle(counts)]
fn in_option(term: &Option<Term>) -> u64
    ensures { result ≡ held (option_map numbers_in term.now) }
{
    match term {
        None => 0,
        Some(term) => numbers_in(term),
    }
}

#[cycle(counts)]
fn in_branches(branches: &Items<(Term, Term)>) -> u64
    ensures { result ≡ greatest (map (λ b. max (numbers_in b.0) (numbers_in b.1)) branches.now) }
{
    let mut most = 0;
    for (test, term) in branches.as_slice() {
        most = most.max(numbers_in(test).max(numbers_in(term)));
    }
    most
}

#[cycle(counts)]
fn in_arms(arms: &Items<(Items<Term>, Term)>) -> u64
    ensures { result ≡ greatest
        (map (λ a. max (greatest (map numbers_in a.0)) (numbers_in a.1)) arms.now) }
{
    let mut most = 0;
    for arm in arms.as_slice() {
        most = most.max(in_arm(arm));
    }
    most
}

#[cycle(counts)]
fn in_arm(arm: &(Items<Term>, Term)) -> u64
    ensures { result ≡ max (greatest (map numbers_in arm.now.0)) (numbers_in arm.now.1) }
{
    greatest(&arm.0).max(numbers_in(&arm.1))
}

#[cycle(counts)]
fn in_items(items: &Items<Item>) -> u64
    ensures { result ≡ greatest (map numbers_in_item items.now) }
{
    let mut most = 0;
    for item in items.as_slice() {
        most = most.max(in_item(item));
    }
    most
}

#[cycle(counts)]
fn in_item(item: &Item) -> u64
    ensures { result ≡ numbers_in_item item.now }
{
    match item {
        Item::Run(term) => numbers_in(term),
        Item::Let(locals, rest, term) => in_let(locals, rest, numbers_in(term)),
        Item::LetMethods(methods) => in_methods(methods),
        Item::Handler(_, function) => numbers_in(function),
    }
}

#[cycle(counts)]
fn in_for(row: &ForRow) -> u64
    ensures { result ≡ numbers_in_for row.now }
{
    let behind = in_test(&row.test).max(numbers_in(&row.body).max(in_option(&row.finally)));
    in_clauses(&row.clauses).max(behind)
}

#[cycle(counts)]
fn in_test(test: &Option<(bool, Term)>) -> u64
    ensures { result ≡ second (option_map (λ t. (t.0, numbers_in t.1)) test.now) }
{
    match test {
        None => 0,
        Some((_, test)) => numbers_in(test),
    }
}

#[cycle(counts)]
fn in_limit(limit: &Option<(Limit, Term)>) -> u64
    ensures { result ≡ second (option_map (λ t. (t.0, numbers_in t.1)) limit.now) }
{
    match limit {
        None => 0,
        Some((_, bound)) => numbers_in(bound),
    }
}

#[cycle(counts)]
fn in_clauses(clauses: &Items<ForClause>) -> u64
    ensures { result ≡ greatest (map numbers_in_clause clauses.now) }
{
    let mut most = 0;
    for clause in clauses.as_slice() {
        most = most.max(in_clause(clause));
    }
    most
}

#[cycle(counts)]
fn in_clause(clause: &ForClause) -> u64
    ensures { result ≡ numbers_in_clause clause.now }
{
    match clause {
        ForClause::Then(local, _, first, next) => {
            next_number(*local).max(numbers_in(first).max(numbers_in(next)))
        }
        ForClause::In(local, _, collection) => next_number(*local).max(numbers_in(collection)),
        ForClause::From(local, _, start, limit, step) => {
            let behind = in_limit(limit).max(in_option(step));
            next_number(*local).max(numbers_in(start).max(behind))
        }
    }
}

#[cycle(counts)]
fn in_block(row: &BlockRow) -> u64
    ensures { result ≡ numbers_in_block row.now }
{
    let clauses = in_catches(&row.clauses);
    let ends = in_option(&row.afterwards).max(in_option(&row.cleanup).max(clauses));
    next_of(&row.exit).max(numbers_in(&row.body).max(ends))
}

#[cycle(counts)]
fn in_catches(clauses: &Items<(Option<u32>, DyType, Term)>) -> u64
    ensures { result ≡ greatest
        (map (λ c. max (behind c.0) (numbers_in c.2)) clauses.now) }
{
    let mut most = 0;
    for (local, _, body) in clauses.as_slice() {
        most = most.max(next_of(local).max(numbers_in(body)));
    }
    most
}

fn next_number(local: u32) -> u64
    ensures { result ≡ local + 1 }
{
    u64::from(local) + 1
}

fn next_of(local: &Option<u32>) -> u64
    ensures { result ≡ behind local.now }
{
    match local {
        None => 0,
        Some(local) => next_number(*local),
    }
}

fn in_let(locals: &Items<(u32, DyType)>, rest: &Option<u32>, term: u64) -> u64
    ensures { result ≡ max (greatest (map (λ local. local.0 + 1) locals.now))
        (max (behind rest.now) term) }
{
    let mut most = 0;
    for (local, _) in locals.as_slice() {
        most = most.max(next_number(*local));
    }
    most.max(next_of(rest).max(term))
}

fn in_lambda(lambda: &Lambda) -> u64
    ensures { result ≡ numbers_in_lambda lambda.now }
{
    u64::from(lambda.locals)
}

fn in_methods(methods: &Items<(u32, Lambda)>) -> u64
    ensures { result ≡ greatest (map (λ m. max (m.0 + 1) (numbers_in_lambda m.1)) methods.now) }
{
    let mut most = 0;
    for (local, lambda) in methods.as_slice() {
        most = most.max(next_number(*local).max(in_lambda(lambda)));
    }
    most
}
