//! Lambdas with too many required parameters.

ghost use Rattle.std.specs.Prelude.{◌≡◌, ◌||◌, map, option_map};
ghost use Rattle.dy_widths.specs.Wide.{are_many, any_of, some_of, any_branch, any_arm, any_behind};
ghost use Rattle.dy_widths.specs.Wide.{some_behind, any_clause, is_wide_clause, is_wide_item};
ghost use Rattle.dy_widths.specs.Wide.{is_wide_term, is_wide_block, is_wide_for, is_wide_lambda};

use dy_base::{Boxed, Items};
use dy_term::{BlockRow, DyType, ForClause, ForRow, Item, Lambda, Limit, Params, Term};

/// How many required parameters there may be.
const PARAMETER_LIMIT: usize = 8;

/// Whether a parameter list has more required parameters than there may be.
pub fn are_many(params: &Params) -> bool
    ensures { result ≡ are_many params.now }
{
    PARAMETER_LIMIT < params.required.len()
}

/// Whether a lambda inside has too many required parameters.
#[cycle(wide)]
pub fn is_wide_term(term: &Term) -> bool
    ensures { result ≡ is_wide_term term.now }
{
    match term {
        Term::Lit(_)
        | Term::Local(_)
        | Term::Global(_)
        | Term::ClassName(_)
        | Term::GenericName(_) => { false }
        Term::SetLocal(_, value) | Term::SetGlobal(_, value) => is_wide_term(value),
        Term::Call(function, arguments) => is_wide_term(function) || any_term(arguments),
        Term::Site(_, arguments) | Term::Op(_, arguments) => any_term(arguments),
        Term::Cond(branches, last) => any_branch(branches) || is_wide_term(last),
        Term::And(first, second) | Term::Or(first, second) | Term::Loop(first, second) => {
            is_wide_term(first) || is_wide_term(second)
        }
        Term::Select(value, test, arms, last) => {
            is_wide_term(value) || some_boxed(test) || any_arm(arms) || some_boxed(last)
        }
        Term::Body(items) => any_item(items),
        Term::For(row) => is_wide_for(row),
        Term::Method(lambda) => is_wide_lambda(lambda),
        Term::Block(row) => is_wide_block(row),
        Term::Next(None) => false,
        Term::Next(Some(arguments)) => any_term(arguments),
    }
}

#[cycle(wide)]
fn any_term(terms: &Items<Term>) -> bool
    ensures { result ≡ any_of (map is_wide_term terms.now) }
{
    for term in terms.as_slice() {
        if is_wide_term(term) {
            return true;
        }
    }
    false
}

#[cycle(wide)]
fn some_boxed(term: &Option<Boxed<Term>>) -> bool
    ensures { result ≡ some_of (option_map is_wide_term term.now) }
{
    match term {
        None => false,
        Some(term) => is_wide_term(term),
    }
}

#[cycle(wide)]
fn some_term(term: &Option<Term>) -> bool
    ensures { result ≡ some_of (option_map is_wide_term term.now) }
{
    match term {
        None => false,
        Some(term) => is_wide_term(term),
    }
}

#[cycle(wide)]
fn any_branch(branches: &Items<(Term, Term)>) -> bool
    ensures { result ≡ any_branch (map (λ b. (is_wide_term b.0, is_wide_term b.1)) branches.now) }
{
    for (test, term) in branches.as_slice() {
        if is_wide_term(test) || is_wide_term(term) {
            return true;
        }
    }
    false
}

#[cycle(wide)]
fn any_arm(arms: &Items<(Items<Term>, Term)>) -> bool
    ensures { result ≡ any_arm (map (λ a. (map is_wide_term a.0, is_wide_term a.1)) arms.now) }
{
    for arm in arms.as_slice() {
        if is_wide_arm(arm) {
            return true;
        }
    }
    false
}

#[cycle(wide)]
fn is_wide_arm(arm: &(Items<Term>, Term)) -> bool
    ensures { result ≡ (any_of (map is_wide_term arm.now.0) || is_wide_term arm.now.1) }
{
    any_term(&arm.0) || is_wide_term(&arm.1)
}

#[cycle(wide)]
fn any_item(items: &Items<Item>) -> bool
    ensures { result ≡ any_of (map is_wide_item items.now) }
{
    for item in items.as_slice() {
        if is_wide_item(item) {
            return true;
        }
    }
    false
}

#[cycle(wide)]
fn is_wide_item(item: &Item) -> bool
    ensures { result ≡ is_wide_item item.now }
{
    match item {
        Item::Run(term) => is_wide_term(term),
        Item::Let(_, _, term) => is_wide_term(term),
        Item::LetMethods(methods) => any_method(methods),
        Item::Handler(_, function) => is_wide_term(function),
    }
}

#[cycle(wide)]
fn any_method(methods: &Items<(u32, Lambda)>) -> bool
    ensures { result ≡ any_behind (map (λ m. (m.0, is_wide_lambda m.1)) methods.now) }
{
    for (_, lambda) in methods.as_slice() {
        if is_wide_lambda(lambda) {
            return true;
        }
    }
    false
}

#[cycle(wide)]
fn is_wide_for(row: &ForRow) -> bool
    ensures { result ≡ is_wide_for row.now }
{
    any_clause(&row.clauses)
        || some_test(&row.test)
        || is_wide_term(&row.body)
        || some_term(&row.finally)
}

#[cycle(wide)]
fn some_test(test: &Option<(bool, Term)>) -> bool
    ensures { result ≡ some_behind (option_map (λ t. (t.0, is_wide_term t.1)) test.now) }
{
    match test {
        None => false,
        Some((_, test)) => is_wide_term(test),
    }
}

#[cycle(wide)]
fn any_clause(clauses: &Items<ForClause>) -> bool
    ensures { result ≡ any_of (map is_wide_clause clauses.now) }
{
    for clause in clauses.as_slice() {
        if is_wide_clause(clause) {
            return true;
        }
    }
    false
}

#[cycle(wide)]
fn is_wide_clause(clause: &ForClause) -> bool
    ensures { result ≡ is_wide_clause clause.now }
{
    match clause {
        ForClause::Then(_, _, first, next) => is_wide_term(first) || is_wide_term(next),
        ForClause::In(_, _, collection) => is_wide_term(collection),
        ForClause::From(_, _, start, limit, step) => {
            is_wide_term(start) || some_limit(limit) || some_term(step)
        },
    }
}

#[cycle(wide)]
fn some_limit(limit: &Option<(Limit, Term)>) -> bool
    ensures { result ≡ some_behind (option_map (λ t. (t.0, is_wide_term t.1)) limit.now) }
{
    match limit {
        None => false,
        Some((_, bound)) => is_wide_term(bound),
    }
}

#[cycle(wide)]
fn is_wide_block(row: &BlockRow) -> bool
    ensures { result ≡ is_wide_block row.now }
{
    is_wide_term(&row.body)
        || some_term(&row.afterwards)
        || some_term(&row.cleanup)
        || any_catch(&row.clauses)
}

#[cycle(wide)]
fn any_catch(clauses: &Items<(Option<u32>, DyType, Term)>) -> bool
    ensures { result ≡ any_clause (map (λ c. (c.0, c.1, is_wide_term c.2)) clauses.now) }
{
    for (_, _, body) in clauses.as_slice() {
        if is_wide_term(body) {
            return true;
        }
    }
    false
}

#[cycle(wide)]
fn any_default(keywords: &Items<(DyType, Term)>) -> bool
    ensures { result ≡ any_behind (map (λ k. (k.0, is_wide_term k.1)) keywords.now) }
{
    for (_, default) in keywords.as_slice() {
        if is_wide_term(default) {
            return true;
        }
    }
    false
}

/// Whether it, or a lambda inside, has too many required parameters.
#[cycle(wide)]
pub fn is_wide_lambda(lambda: &Lambda) -> bool
    ensures { result ≡ is_wide_lambda lambda.now }
{
    are_many(&lambda.params) || any_default(&lambda.keywords) || is_wide_term(&lambda.body)
}
