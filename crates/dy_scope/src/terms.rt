//! Drafts as terms. The locals in force are handed down in one table, which each function leaves as
//! it was.

ghost use Rattle.std.specs.Prelude.{◌≡◌, ◌+◌, ◌<◌, ◌^◌, map, length, option_map, IfOk, OnOk};
ghost use Rattle.dy_term.specs.Types.{seen_typed};
ghost use Rattle.dy_term.specs.Drafts.{seen_term, seen_pair, seen_option, seen_arm, seen_item};
ghost use Rattle.dy_term.specs.Drafts.{seen_method, seen_lambda, seen_clause, seen_bound};
ghost use Rattle.dy_term.specs.Drafts.{seen_ending, seen_catch, cores_of, maybe_of, choice_of};
ghost use Rattle.dy_term.specs.Drafts.{arms_of, items_of, methods_of, clauses_of, catches_of};
ghost use Rattle.dy_term.specs.Drafts.{seen_block, for, let_values};
ghost use Rattle.dy_resolution.specs.Terms.{core_term, core_terms, core_maybe, core_arms, core_items};
ghost use Rattle.dy_resolution.specs.Terms.{core_item, core_methods, core_lambda, core_defaults};
ghost use Rattle.dy_resolution.specs.Terms.{core_firsts, core_first, core_limit, core_clauses};
ghost use Rattle.dy_resolution.specs.Terms.{core_clause, core_test, core_catches};
ghost use Rattle.dy_term.specs.declared.draft.DraftBlock.{out-DraftBlock};
ghost use Rattle.dy_scope.specs.Parts.{core_called, AreBranches, core_turns, core_bodies};

use crate::made::{
    Bodies, Called, Turns, block_of, call_of, for_of, from_clause, in_clause, tell_apart,
    then_clause,
};
use dy_base::{Boxed, Items, Kind};
use dy_binding::{
    Apart, Head, KeyRead, Progress, assignment, bind_kept, bind_methods, bind_name, bind_params,
    bind_some, bind_typed, bind_variables, check_place, copy_literal, count, head_of, hidden_term,
    is_next, key_types, name_term, number_behind, number_catches, number_of, read_numbered,
    read_required, read_results, read_type, shape_of, take_numbers, tell_place, tell_some, type_or,
};
use dy_names::{Denotation, Environment, Scope, hidden_meaning, meaning};
use dy_term::{
    DraftArm, DraftBlock, DraftBlockClause, DraftFor, DraftForClause, DraftItem, DraftLambda,
    DraftTerm, DraftType, DyType, ForClause, Item, Lambda, Limit, Local, Term,
};
use dy_tree::Token;
use std::alloc::{AllocError, Global};
use std::collections::VecDeque;

/// The number of the built-in function `values`.
const VALUES: u16 = 61;

/// The term of a draft where these locals are in force.
#[cycle(resolve)]
pub fn term<E: Environment>(
    alloc: Global,
    environment: &E,
    draft: &DraftTerm,
    scope: &mut Scope,
    progress: &mut Progress,
) -> Result<Term, AllocError>
    ensures term { IfOk result
        (λ found. found ≡ (core_term (E.outside environment.now)
        (seen_term draft.now) scope.old progress.old).0) }
    ensures after { OnOk result
        (progress.new ≡ (core_term (E.outside environment.now)
        (seen_term draft.now) scope.old progress.old).1) }
    ensures same { OnOk result (scope.new ≡ scope.old) }
{
    match draft {
        DraftTerm::Lit(value) => Ok(Term::Lit(copy_literal(alloc, value)?)),
        DraftTerm::Name(name) => {
            let meant = meaning(alloc, environment, scope, name)?;
            name_term(alloc, progress, meant, name)
        }
        DraftTerm::Hidden(number) => Ok(hidden_term(hidden_meaning(scope, *number))),
        DraftTerm::Set(name, value) => {
            let meant = meaning(alloc, environment, scope, name)?;
            check_place(alloc, progress, meant, name)?;
            let value = term(alloc, environment, value, scope, progress)?;
            assignment(alloc, meant, value)
        }
        DraftTerm::NoPlace(token, place, value) => {
            tell_place(alloc, progress, Kind::NotAssignable, token)?;
            let place = term(alloc, environment, place, scope, progress)?;
            let value = term(alloc, environment, value, scope, progress)?;
            Ok(Term::And(Boxed::new(alloc, place)?, Boxed::new(alloc, value)?))
        }
        DraftTerm::Call(function, arguments) => {
            let called = called_term(alloc, environment, function, scope, progress)?;
            let arguments = terms(alloc, environment, arguments, scope, progress)?;
            call_of(alloc, called, arguments)
        }
        DraftTerm::Values(drafts) => {
            let terms = terms(alloc, environment, drafts, scope, progress)?;
            Ok(Term::Op(VALUES, terms))
        }
        DraftTerm::Cond(branches, last) => {
            let branches = branch_terms(alloc, environment, branches, scope, progress)?;
            let last = term(alloc, environment, last, scope, progress)?;
            Ok(Term::Cond(branches, Boxed::new(alloc, last)?))
        }
        DraftTerm::And(left, right) => {
            let left = term(alloc, environment, left, scope, progress)?;
            let right = term(alloc, environment, right, scope, progress)?;
            Ok(Term::And(Boxed::new(alloc, left)?, Boxed::new(alloc, right)?))
        }
        DraftTerm::Or(left, right) => {
            let left = term(alloc, environment, left, scope, progress)?;
            let right = term(alloc, environment, right, scope, progress)?;
            Ok(Term::Or(Boxed::new(alloc, left)?, Boxed::new(alloc, right)?))
        }
        DraftTerm::Select(value, test, drafts, last) => {
            let value = term(alloc, environment, value, scope, progress)?;
            let test = boxed_term(alloc, environment, test, scope, progress)?;
            let arms = arms(alloc, environment, drafts, scope, progress)?;
            let last = boxed_term(alloc, environment, last, scope, progress)?;
            Ok(Term::Select(Boxed::new(alloc, value)?, test, arms, last))
        }
        DraftTerm::Body(drafts) => {
            let items = body_items(alloc, environment, drafts, scope, progress)?;
            Ok(Term::Body(items))
        }
        DraftTerm::Loop(test, body) => {
            let test = term(alloc, environment, test, scope, progress)?;
            let body = term(alloc, environment, body, scope, progress)?;
            Ok(Term::Loop(Boxed::new(alloc, test)?, Boxed::new(alloc, body)?))
        }
        DraftTerm::For(row) => for_term(alloc, environment, row, scope, progress),
        DraftTerm::Method(lambda) => {
            let none = Denotation::NoMethod;
            let lambda = lambda_term(alloc, environment, lambda, none, scope, progress)?;
            Ok(Term::Method(Boxed::new(alloc, lambda)?))
        }
        DraftTerm::Block(row) => block_term(alloc, environment, row, scope, progress),
    }
}

/// What a call calls: a term alone where it is none of the names that say more.
#[cycle(resolve)]
fn called_term<E: Environment>(
    alloc: Global,
    environment: &E,
    draft: &DraftTerm,
    scope: &mut Scope,
    progress: &mut Progress,
) -> Result<Called, AllocError>
    ensures called { IfOk result
        (λ found. found ≡ (core_called (E.outside environment.now)
        (seen_term draft.now) scope.old progress.old).0) }
    ensures after { OnOk result
        (progress.new ≡ (core_called (E.outside environment.now)
        (seen_term draft.now) scope.old progress.old).1) }
    ensures same { OnOk result (scope.new ≡ scope.old) }
{
    match head_of(alloc, environment, draft, scope)? {
        Head::Generic(generic) => Ok(Called::Generic(generic)),
        Head::NextMethod => Ok(Called::NextMethod),
        Head::Value => {
            let function = term(alloc, environment, draft, scope, progress)?;
            Ok(Called::Value(function))
        }
    }
}

#[cycle(resolve)]
fn terms<E: Environment>(
    alloc: Global,
    environment: &E,
    drafts: &Vec<DraftTerm>,
    scope: &mut Scope,
    progress: &mut Progress,
) -> Result<Items<Term>, AllocError>
    ensures terms { IfOk result
        (λ found. found ≡ (core_terms (E.outside environment.now)
        (cores_of (map seen_term drafts.now.items)) scope.old progress.old).0) }
    ensures after { OnOk result
        (progress.new ≡ (core_terms (E.outside environment.now)
        (cores_of (map seen_term drafts.now.items)) scope.old progress.old).1) }
    ensures same { OnOk result (scope.new ≡ scope.old) }
{
    let mut terms = Items::new(alloc);
    for draft in drafts {
        terms.push(term(alloc, environment, draft, scope, progress)?)?;
    }
    Ok(terms)
}

#[cycle(resolve)]
fn boxed_term<E: Environment>(
    alloc: Global,
    environment: &E,
    draft: &Option<Box<DraftTerm>>,
    scope: &mut Scope,
    progress: &mut Progress,
) -> Result<Option<Boxed<Term>>, AllocError>
    ensures term { IfOk result
        (λ found. found ≡ (core_maybe (E.outside environment.now)
        (maybe_of (option_map (λ kept. seen_term kept.value) draft.now)) scope.old
        progress.old).0) }
    ensures after { OnOk result
        (progress.new ≡ (core_maybe (E.outside environment.now)
        (maybe_of (option_map (λ kept. seen_term kept.value) draft.now)) scope.old
        progress.old).1) }
    ensures same { OnOk result (scope.new ≡ scope.old) }
{
    match draft {
        None => Ok(None),
        Some(draft) => {
            let term = term(alloc, environment, draft, scope, progress)?;
            Ok(Some(Boxed::new(alloc, term)?))
        }
    }
}

#[cycle(resolve)]
fn some_term<E: Environment>(
    alloc: Global,
    environment: &E,
    draft: &Option<DraftTerm>,
    scope: &mut Scope,
    progress: &mut Progress,
) -> Result<Option<Term>, AllocError>
    ensures term { IfOk result
        (λ found. found ≡ (core_maybe (E.outside environment.now)
        (seen_option draft.now) scope.old progress.old).0) }
    ensures after { OnOk result
        (progress.new ≡ (core_maybe (E.outside environment.now)
        (seen_option draft.now) scope.old progress.old).1) }
    ensures same { OnOk result (scope.new ≡ scope.old) }
{
    match draft {
        None => Ok(None),
        Some(draft) => Ok(Some(term(alloc, environment, draft, scope, progress)?)),
    }
}

/// The tests of a conditional, each with the term that it chooses.
#[cycle(resolve)]
fn branch_terms<E: Environment>(
    alloc: Global,
    environment: &E,
    branches: &Vec<(DraftTerm, DraftTerm)>,
    scope: &mut Scope,
    progress: &mut Progress,
) -> Result<Items<(Term, Term)>, AllocError>
    ensures branches { IfOk result
        (λ found. AreBranches (E.outside environment.now) (map seen_pair branches.now.items)
        scope.old progress.old found progress.new) }
    ensures same { OnOk result (scope.new ≡ scope.old) }
{
    let mut pairs = Items::new(alloc);
    for (test, chosen) in branches {
        let test = term(alloc, environment, test, scope, progress)?;
        let chosen = term(alloc, environment, chosen, scope, progress)?;
        pairs.push((test, chosen))?;
    }
    Ok(pairs)
}

#[cycle(resolve)]
fn arms<E: Environment>(
    alloc: Global,
    environment: &E,
    drafts: &Vec<DraftArm>,
    scope: &mut Scope,
    progress: &mut Progress,
) -> Result<Items<(Items<Term>, Term)>, AllocError>
    ensures arms { IfOk result
        (λ found. found ≡ (core_arms (E.outside environment.now)
        (arms_of (map seen_arm drafts.now.items)) scope.old progress.old).0) }
    ensures after { OnOk result
        (progress.new ≡ (core_arms (E.outside environment.now)
        (arms_of (map seen_arm drafts.now.items)) scope.old progress.old).1) }
    ensures same { OnOk result (scope.new ≡ scope.old) }
{
    let mut arms = Items::new(alloc);
    for draft in drafts {
        let values = terms(alloc, environment, &draft.values, scope, progress)?;
        let body = term(alloc, environment, &draft.body, scope, progress)?;
        arms.push((values, body))?;
    }
    Ok(arms)
}

#[cycle(resolve)]
fn body_items<E: Environment>(
    alloc: Global,
    environment: &E,
    drafts: &Vec<DraftItem>,
    scope: &mut Scope,
    progress: &mut Progress,
) -> Result<Items<Item>, AllocError>
    ensures items { IfOk result
        (λ found. found ≡ (core_items (E.outside environment.now)
        (items_of (map seen_item drafts.now.items)) scope.old progress.old).0) }
    ensures after { OnOk result
        (progress.new ≡ (core_items (E.outside environment.now)
        (items_of (map seen_item drafts.now.items)) scope.old progress.old).1) }
    ensures same { OnOk result (scope.new ≡ scope.old) }
{
    let outside = scope.len();
    let mut items = Items::new(alloc);
    for draft in drafts {
        items.push(item(alloc, environment, draft, scope, progress)?)?;
    }
    scope.leave_to(outside);
    Ok(items)
}

/// An item. The locals that it binds stay in force.
#[cycle(resolve)]
fn item<E: Environment>(
    alloc: Global,
    environment: &E,
    draft: &DraftItem,
    scope: &mut Scope,
    progress: &mut Progress,
) -> Result<Item, AllocError>
    ensures item { IfOk result
        (λ found. found ≡ (core_item (E.outside environment.now)
        (seen_item draft.now) scope.old progress.old).0.0) }
    ensures after { OnOk result
        (progress.new ≡ (core_item (E.outside environment.now)
        (seen_item draft.now) scope.old progress.old).1) }
    ensures scope { OnOk result
        (scope.new ≡ (core_item (E.outside environment.now)
        (seen_item draft.now) scope.old progress.old).0.1) }
{
    match draft {
        DraftItem::Run(draft) => Ok(Item::Run(term(alloc, environment, draft, scope, progress)?)),
        DraftItem::Let(typed, rest, value) => {
            let_item(alloc, environment, value, typed, rest, scope, progress)
        }
        DraftItem::LetMethods(methods) => {
            let first = take_numbers(progress, methods.len())?;
            bind_methods(alloc, methods, first, scope)?;
            let lambdas = method_lambdas(alloc, environment, methods, first, scope, progress)?;
            Ok(Item::LetMethods(lambdas))
        }
        DraftItem::Handler(condition, function) => {
            let condition = read_type(alloc, environment, condition, scope, progress)?;
            let function = term(alloc, environment, function, scope, progress)?;
            Ok(Item::Handler(condition, function))
        }
    }
}

#[cycle(resolve)]
fn let_item<E: Environment>(
    alloc: Global,
    environment: &E,
    value: &DraftTerm,
    typed: &Vec<(Local, DraftType)>,
    rest: &Option<Local>,
    scope: &mut Scope,
    progress: &mut Progress,
) -> Result<Item, AllocError>
    ensures item { IfOk result
        (λ found. found ≡ (core_item (E.outside environment.now)
        (let_values (map seen_typed typed.now.items) rest.now (seen_term value.now)) scope.old
        progress.old).0.0) }
    ensures after { OnOk result
        (progress.new ≡ (core_item (E.outside environment.now)
        (let_values (map seen_typed typed.now.items) rest.now (seen_term value.now)) scope.old
        progress.old).1) }
    ensures scope { OnOk result
        (scope.new ≡ (core_item (E.outside environment.now)
        (let_values (map seen_typed typed.now.items) rest.now (seen_term value.now)) scope.old
        progress.old).0.1) }
{
    let first = take_numbers(progress, typed.len())?;
    let last = take_numbers(progress, count(rest))?;
    let types = read_numbered(alloc, environment, typed, first, scope, progress)?;
    let value = term(alloc, environment, value, scope, progress)?;
    bind_typed(alloc, typed, first, scope)?;
    bind_some(alloc, rest, last, scope)?;
    Ok(Item::Let(types, number_of(rest, last), value))
}

#[cycle(resolve)]
fn method_lambdas<E: Environment>(
    alloc: Global,
    environment: &E,
    methods: &Vec<(Token, DraftLambda)>,
    first: u32,
    scope: &mut Scope,
    progress: &mut Progress,
) -> Result<Items<(u32, Lambda)>, AllocError>
    requires { first + length methods.now.items < 2 ^ 32 }
    ensures lambdas { IfOk result
        (λ found. found ≡ (core_methods (E.outside environment.now)
        (methods_of (map seen_method methods.now.items)) first scope.old progress.old).0) }
    ensures after { OnOk result
        (progress.new ≡ (core_methods (E.outside environment.now)
        (methods_of (map seen_method methods.now.items)) first scope.old progress.old).1) }
    ensures same { OnOk result (scope.new ≡ scope.old) }
{
    let mut lambdas = Items::new(alloc);
    let mut number = first;
    for (_name, lambda) in methods {
        let none = Denotation::NoMethod;
        let lambda = lambda_term(alloc, environment, lambda, none, scope, progress)?;
        lambdas.push((number, lambda))?;
        number += 1;
    }
    Ok(lambdas)
}

/// A body with parameters. A written name of the next method stands for this.
#[cycle(resolve)]
pub fn lambda_term<E: Environment>(
    alloc: Global,
    environment: &E,
    draft: &DraftLambda,
    denotation: Denotation,
    scope: &mut Scope,
    progress: &mut Progress,
) -> Result<Lambda, AllocError>
    ensures lambda { IfOk result
        (λ found. found ≡ (core_lambda (E.outside environment.now)
        (seen_lambda draft.now) denotation scope.old progress.old).0) }
    ensures after { OnOk result
        (progress.new ≡ (core_lambda (E.outside environment.now)
        (seen_lambda draft.now) denotation scope.old progress.old).1) }
    ensures same { OnOk result (scope.new ≡ scope.old) }
{
    let outside = scope.len();
    let params = &draft.params;
    let first = take_numbers(progress, params.required.len())?;
    let rest = take_numbers(progress, count(&params.rest))?;
    let keys = key_types(alloc, environment, &params.keys, scope)?;
    let key = take_numbers(progress, keys.len())?;
    let required = read_required(alloc, environment, &params.required, scope, progress)?;
    let mut apart = Progress {
        next: 0,
        first: None,
    };
    let results = read_results(alloc, environment, &draft.results, scope, &mut apart)?;
    bind_params(alloc, params, denotation, first, rest, scope)?;
    let keywords = default_terms(
        alloc,
        environment,
        &draft.defaults,
        keys,
        key,
        scope,
        progress,
    )?;
    let Progress {
        next: _,
        first: fault,
    } = apart;
    tell_some(progress, fault);
    let body = term(alloc, environment, &draft.body, scope, progress)?;
    scope.leave_to(outside);
    Ok(Lambda {
        params: shape_of(alloc, params, required)?,
        keywords,
        next: is_next(denotation),
        first,
        locals: progress.next,
        body,
        results,
    })
}

/// Keyword parameters with their defaults. They stay in force.
#[cycle(resolve)]
fn default_terms<E: Environment>(
    alloc: Global,
    environment: &E,
    defaults: &Vec<DraftTerm>,
    keys: VecDeque<KeyRead>,
    first: u32,
    scope: &mut Scope,
    progress: &mut Progress,
) -> Result<Items<(DyType, Term)>, AllocError>
    requires { first + length keys.items < 2 ^ 32 }
    ensures keywords { IfOk result
        (λ found. found ≡ (core_defaults (E.outside environment.now)
        (cores_of (map seen_term defaults.now.items)) keys.items first scope.old
        progress.old).0.0) }
    ensures after { OnOk result
        (progress.new ≡ (core_defaults (E.outside environment.now)
        (cores_of (map seen_term defaults.now.items)) keys.items first scope.old progress.old).1) }
    ensures scope { OnOk result
        (scope.new ≡ (core_defaults (E.outside environment.now)
        (cores_of (map seen_term defaults.now.items)) keys.items first scope.old
        progress.old).0.1) }
{
    let mut rest = keys;
    let mut keywords = Items::new(alloc);
    let mut number = first;
    for draft in defaults {
        match rest.pop_front() {
            None => return Ok(keywords),
            Some((variable, declared)) => {
                let declared = type_or(alloc, declared, progress);
                let default = term(alloc, environment, draft, scope, progress)?;
                keywords.push((declared, default))?;
                scope.bind(alloc, &variable, Denotation::Local(number))?;
                number += 1;
            }
        }
    }
    Ok(keywords)
}

#[cycle(resolve)]
fn for_term<E: Environment>(
    alloc: Global,
    environment: &E,
    row: &DraftFor,
    scope: &mut Scope,
    progress: &mut Progress,
) -> Result<Term, AllocError>
    ensures term { IfOk result
        (λ found. found ≡ (core_term (E.outside environment.now)
        (for (clauses_of (map seen_clause row.now.clauses.items)) (seen_ending row.now.test)
        (seen_term row.now.body) (seen_option row.now.finally)) scope.old progress.old).0) }
    ensures after { OnOk result
        (progress.new ≡ (core_term (E.outside environment.now)
        (for (clauses_of (map seen_clause row.now.clauses.items)) (seen_ending row.now.test)
        (seen_term row.now.body) (seen_option row.now.finally)) scope.old progress.old).1) }
    ensures same { OnOk result (scope.new ≡ scope.old) }
{
    let outside = scope.len();
    let first = take_numbers(progress, row.clauses.len())?;
    let firsts = first_terms(alloc, environment, &row.clauses, scope, progress)?;
    bind_variables(alloc, &row.clauses, first, scope)?;
    let turns = turn_terms(alloc, environment, row, firsts, first, scope, progress)?;
    scope.leave_to(outside);
    bind_kept(alloc, &row.clauses, first, scope)?;
    let finally = some_term(alloc, environment, &row.finally, scope, progress)?;
    scope.leave_to(outside);
    let found = for_of(alloc, turns, finally)?;
    Ok(found)
}

/// What a `for` does in each turn. Its variables are in force.
#[cycle(resolve)]
fn turn_terms<E: Environment>(
    alloc: Global,
    environment: &E,
    row: &DraftFor,
    firsts: VecDeque<Apart>,
    first: u32,
    scope: &mut Scope,
    progress: &mut Progress,
) -> Result<Turns, AllocError>
    requires { first + length row.now.clauses.items < 2 ^ 32 }
    ensures turns { IfOk result
        (λ found. found ≡ (core_turns (E.outside environment.now)
        (clauses_of (map seen_clause row.now.clauses.items)) (seen_ending row.now.test)
        (seen_term row.now.body) firsts.items first scope.old progress.old).0) }
    ensures after { OnOk result
        (progress.new ≡ (core_turns (E.outside environment.now)
        (clauses_of (map seen_clause row.now.clauses.items)) (seen_ending row.now.test)
        (seen_term row.now.body) firsts.items first scope.old progress.old).1) }
    ensures same { OnOk result (scope.new ≡ scope.old) }
{
    let clauses = clause_terms(
        alloc,
        environment,
        &row.clauses,
        firsts,
        first,
        scope,
        progress,
    )?;
    let test = test_term(alloc, environment, &row.test, scope, progress)?;
    let body = term(alloc, environment, &row.body, scope, progress)?;
    Ok((clauses, test, body))
}

/// The first expressions of clauses, each with its own fault.
#[cycle(resolve)]
fn first_terms<E: Environment>(
    alloc: Global,
    environment: &E,
    clauses: &Vec<DraftForClause>,
    scope: &mut Scope,
    progress: &mut Progress,
) -> Result<VecDeque<Apart>, AllocError>
    ensures firsts { IfOk result
        (λ found. found.items ≡ (core_firsts (E.outside environment.now)
        (clauses_of (map seen_clause clauses.now.items)) scope.old progress.old.next).0) }
    ensures after { OnOk result
        (progress.new ≡ record progress.old {
          next = (core_firsts (E.outside environment.now)
              (clauses_of (map seen_clause clauses.now.items)) scope.old progress.old.next).1;
        }) }
    ensures same { OnOk result (scope.new ≡ scope.old) }
{
    let mut firsts = VecDeque::new(alloc);
    for clause in clauses {
        let mut own = Progress {
            next: progress.next,
            first: None,
        };
        let Apart {
            declared,
            first,
            limit,
            step,
            fault: _,
        } = first_part(alloc, environment, clause, scope, &mut own)?;
        let Progress { next, first: fault } = own;
        progress.next = next;
        firsts.push_back(Apart {
            declared,
            first,
            limit,
            step,
            fault,
        })?;
    }
    Ok(firsts)
}

#[cycle(resolve)]
fn first_part<E: Environment>(
    alloc: Global,
    environment: &E,
    clause: &DraftForClause,
    scope: &mut Scope,
    progress: &mut Progress,
) -> Result<Apart, AllocError>
    ensures part { IfOk result
        (λ found. found ≡ (core_first (E.outside environment.now)
        (seen_clause clause.now) scope.old progress.old).0) }
    ensures after { OnOk result
        (progress.new ≡ (core_first (E.outside environment.now)
        (seen_clause clause.now) scope.old progress.old).1) }
    ensures same { OnOk result (scope.new ≡ scope.old) }
{
    match clause {
        DraftForClause::Then(_, declared, first, _) => {
            let declared = read_type(alloc, environment, declared, scope, progress)?;
            let first = term(alloc, environment, first, scope, progress)?;
            Ok(Apart {
                declared,
                first,
                limit: None,
                step: None,
                fault: None,
            })
        }
        DraftForClause::In(_, declared, collection) => {
            let declared = read_type(alloc, environment, declared, scope, progress)?;
            let first = term(alloc, environment, collection, scope, progress)?;
            Ok(Apart {
                declared,
                first,
                limit: None,
                step: None,
                fault: None,
            })
        }
        DraftForClause::From(_, declared, start, limit, step) => {
            let declared = read_type(alloc, environment, declared, scope, progress)?;
            let first = term(alloc, environment, start, scope, progress)?;
            let limit = limit_term(alloc, environment, limit, scope, progress)?;
            let step = some_term(alloc, environment, step, scope, progress)?;
            Ok(Apart {
                declared,
                first,
                limit,
                step,
                fault: None,
            })
        }
    }
}

#[cycle(resolve)]
fn limit_term<E: Environment>(
    alloc: Global,
    environment: &E,
    limit: &Option<(Limit, DraftTerm)>,
    scope: &mut Scope,
    progress: &mut Progress,
) -> Result<Option<(Limit, Term)>, AllocError>
    ensures limit { IfOk result
        (λ found. found ≡ (core_limit (E.outside environment.now)
        (seen_bound limit.now) scope.old progress.old).0) }
    ensures after { OnOk result
        (progress.new ≡ (core_limit (E.outside environment.now)
        (seen_bound limit.now) scope.old progress.old).1) }
    ensures same { OnOk result (scope.new ≡ scope.old) }
{
    match limit {
        None => Ok(None),
        Some((limit, bound)) => {
            let bound = term(alloc, environment, bound, scope, progress)?;
            Ok(Some((*limit, bound)))
        }
    }
}

/// Clauses whose first expressions were read.
#[cycle(resolve)]
fn clause_terms<E: Environment>(
    alloc: Global,
    environment: &E,
    drafts: &Vec<DraftForClause>,
    firsts: VecDeque<Apart>,
    first: u32,
    scope: &mut Scope,
    progress: &mut Progress,
) -> Result<Items<ForClause>, AllocError>
    requires { first + length drafts.now.items < 2 ^ 32 }
    ensures clauses { IfOk result
        (λ found. found ≡ (core_clauses (E.outside environment.now)
        (clauses_of (map seen_clause drafts.now.items)) firsts.items first scope.old
        progress.old).0) }
    ensures after { OnOk result
        (progress.new ≡ (core_clauses (E.outside environment.now)
        (clauses_of (map seen_clause drafts.now.items)) firsts.items first scope.old
        progress.old).1) }
    ensures same { OnOk result (scope.new ≡ scope.old) }
{
    let mut rest = firsts;
    let mut clauses = Items::new(alloc);
    let mut number = first;
    for draft in drafts {
        match rest.pop_front() {
            None => return Ok(clauses),
            Some(read) => {
                clauses.push(clause_term(
                    alloc,
                    environment,
                    draft,
                    read,
                    number,
                    scope,
                    progress,
                )?)?;
                number += 1;
            }
        }
    }
    Ok(clauses)
}

#[cycle(resolve)]
fn clause_term<E: Environment>(
    alloc: Global,
    environment: &E,
    draft: &DraftForClause,
    read: Apart,
    number: u32,
    scope: &mut Scope,
    progress: &mut Progress,
) -> Result<ForClause, AllocError>
    ensures clause { IfOk result
        (λ found. found ≡ (core_clause (E.outside environment.now)
        (seen_clause draft.now) read number scope.old progress.old).0) }
    ensures after { OnOk result
        (progress.new ≡ (core_clause (E.outside environment.now)
        (seen_clause draft.now) read number scope.old progress.old).1) }
    ensures same { OnOk result (scope.new ≡ scope.old) }
{
    let read = tell_apart(read, progress);
    match draft {
        DraftForClause::Then(_, _, _, next) => {
            let next = term(alloc, environment, next, scope, progress)?;
            Ok(then_clause(number, read, next))
        }
        DraftForClause::In(_, _, _) => Ok(in_clause(number, read)),
        DraftForClause::From(_, _, _, _, _) => Ok(from_clause(number, read)),
    }
}

#[cycle(resolve)]
fn test_term<E: Environment>(
    alloc: Global,
    environment: &E,
    test: &Option<(bool, DraftTerm)>,
    scope: &mut Scope,
    progress: &mut Progress,
) -> Result<Option<(bool, Term)>, AllocError>
    ensures test { IfOk result
        (λ found. found ≡ (core_test (E.outside environment.now)
        (seen_ending test.now) scope.old progress.old).0) }
    ensures after { OnOk result
        (progress.new ≡ (core_test (E.outside environment.now)
        (seen_ending test.now) scope.old progress.old).1) }
    ensures same { OnOk result (scope.new ≡ scope.old) }
{
    match test {
        None => Ok(None),
        Some((ends, test)) => {
            let test = term(alloc, environment, test, scope, progress)?;
            Ok(Some((*ends, test)))
        }
    }
}

#[cycle(resolve)]
fn block_term<E: Environment>(
    alloc: Global,
    environment: &E,
    row: &DraftBlock,
    scope: &mut Scope,
    progress: &mut Progress,
) -> Result<Term, AllocError>
    ensures term { IfOk result
        (λ found. found ≡ (core_term (E.outside environment.now)
        (seen_block row.now) scope.old progress.old).0) }
    ensures after { OnOk result
        (progress.new ≡ (core_term (E.outside environment.now)
        (seen_block row.now) scope.old progress.old).1) }
    ensures same { OnOk result (scope.new ≡ scope.old) }
{
    let outside = scope.len();
    let exit = take_numbers(progress, count(&row.exit))?;
    let first = progress.next;
    number_catches(&row.clauses, progress)?;
    bind_name(alloc, &row.exit, exit, scope)?;
    let bodies = body_terms(alloc, environment, row, first, scope, progress)?;
    scope.leave_to(outside);
    let found = block_of(alloc, number_of(&row.exit, exit), bodies)?;
    Ok(found)
}

/// What a `block` does. Its exit procedure is in force.
#[cycle(resolve)]
fn body_terms<E: Environment>(
    alloc: Global,
    environment: &E,
    row: &DraftBlock,
    first: u32,
    scope: &mut Scope,
    progress: &mut Progress,
) -> Result<Bodies, AllocError>
    ensures bodies { IfOk result
        (λ found. found ≡ (core_bodies (E.outside environment.now)
        (seen_term (out-DraftBlock row.now).body)
        (seen_option (out-DraftBlock row.now).afterwards)
        (seen_option (out-DraftBlock row.now).cleanup)
        (catches_of (map seen_catch (out-DraftBlock row.now).clauses.items)) first scope.old
        progress.old).0) }
    ensures after { OnOk result
        (progress.new ≡ (core_bodies (E.outside environment.now)
        (seen_term (out-DraftBlock row.now).body)
        (seen_option (out-DraftBlock row.now).afterwards)
        (seen_option (out-DraftBlock row.now).cleanup)
        (catches_of (map seen_catch (out-DraftBlock row.now).clauses.items)) first scope.old
        progress.old).1) }
    ensures same { OnOk result (scope.new ≡ scope.old) }
{
    let body = term(alloc, environment, &row.body, scope, progress)?;
    let afterwards = some_term(alloc, environment, &row.afterwards, scope, progress)?;
    let cleanup = some_term(alloc, environment, &row.cleanup, scope, progress)?;
    let clauses = catch_terms(alloc, environment, &row.clauses, first, scope, progress)?;
    Ok((body, afterwards, cleanup, clauses))
}

#[cycle(resolve)]
fn catch_terms<E: Environment>(
    alloc: Global,
    environment: &E,
    drafts: &Vec<DraftBlockClause>,
    first: u32,
    scope: &mut Scope,
    progress: &mut Progress,
) -> Result<Items<(Option<u32>, DyType, Term)>, AllocError>
    ensures clauses { IfOk result
        (λ found. found ≡ (core_catches (E.outside environment.now)
        (catches_of (map seen_catch drafts.now.items)) first scope.old progress.old).0) }
    ensures after { OnOk result
        (progress.new ≡ (core_catches (E.outside environment.now)
        (catches_of (map seen_catch drafts.now.items)) first scope.old progress.old).1) }
    ensures same { OnOk result (scope.new ≡ scope.old) }
{
    let outside = scope.len();
    let mut clauses = Items::new(alloc);
    let mut number = first;
    for draft in drafts {
        let condition = read_type(alloc, environment, &draft.condition, scope, progress)?;
        bind_name(alloc, &draft.variable, number, scope)?;
        let body = term(alloc, environment, &draft.body, scope, progress)?;
        scope.leave_to(outside);
        clauses.push((number_of(&draft.variable, number), condition, body))?;
        number = number_behind(&draft.variable, number)?;
    }
    Ok(clauses)
}
