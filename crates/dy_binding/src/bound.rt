//! Locals that come into force.

ghost use Rattle.std.specs.Prelude.{◌≡◌, ◌+◌, ◌<◌, ◌^◌, map, length, option_map, IfOk, OnOk};
ghost use Rattle.dy_term.specs.declared.draft.Local.TheVariants.{Named};
ghost use Rattle.dy_term.specs.Types.{seen_typed, seen_params};
ghost use Rattle.dy_term.specs.Drafts.{seen_method, seen_clause, seen_catch, methods_of};
ghost use Rattle.dy_term.specs.Drafts.{clauses_of, catches_of};
ghost use Rattle.dy_binding.specs.Bound.{bound, bound_some, params_bound, standing, number_of};
ghost use Rattle.dy_binding.specs.Bound.{methods_bound, variable_of, variables_bound, kept_bound};
ghost use Rattle.dy_binding.specs.Bound.{kept_one, catches_numbered, count};

use crate::progress::{Progress, take_numbers};
use dy_names::{Denotation, Scope};
use dy_term::{DraftBlockClause, DraftForClause, DraftLambda, DraftParams, DraftType, Local};
use dy_tree::Token;
use std::alloc::{AllocError, Global};

/// Required parameters, numbered from a number on.
fn bind_required(
    alloc: Global,
    required: &Vec<(Token, DraftType)>,
    first: u32,
    scope: &mut Scope,
) -> Result<(), AllocError>
    requires { first + length required.now.items < 2 ^ 32 }
    ensures { OnOk result (scope.new
        ≡ bound first (map (λ r. Named r.0) (map seen_typed required.now.items)) scope.old) }
{
    let mut number = first;
    for (name, _declared) in required {
        scope.bind(alloc, name, Denotation::Local(number))?;
        number += 1;
    }
    Ok(())
}

/// The locals of a `let`, numbered from a number on.
pub fn bind_typed(
    alloc: Global,
    typed: &Vec<(Local, DraftType)>,
    first: u32,
    scope: &mut Scope,
) -> Result<(), AllocError>
    requires { first + length typed.now.items < 2 ^ 32 }
    ensures { OnOk result (scope.new
        ≡ bound first (map (λ t. t.0) (map seen_typed typed.now.items)) scope.old) }
{
    let mut number = first;
    for (local, _declared) in typed {
        scope.bind_local(alloc, local, Denotation::Local(number))?;
        number += 1;
    }
    Ok(())
}

/// A local that may be left out.
pub fn bind_some(
    alloc: Global,
    local: &Option<Local>,
    number: u32,
    scope: &mut Scope,
) -> Result<(), AllocError>
    ensures { OnOk result (scope.new ≡ bound_some number local.now scope.old) }
{
    match local {
        None => Ok(()),
        Some(local) => scope.bind_local(alloc, local, Denotation::Local(number)),
    }
}

/// A written name that may be left out, as a local.
pub fn bind_name(
    alloc: Global,
    name: &Option<Token>,
    number: u32,
    scope: &mut Scope,
) -> Result<(), AllocError>
    ensures { OnOk result (scope.new ≡ bound_some number (option_map Named name.now) scope.old) }
{
    match name {
        None => Ok(()),
        Some(name) => scope.bind(alloc, name, Denotation::Local(number)),
    }
}

/// A written name that may be left out, and what it stands for.
pub fn bind_standing(
    alloc: Global,
    name: &Option<Token>,
    denotation: Denotation,
    scope: &mut Scope,
) -> Result<(), AllocError>
    ensures { OnOk result (scope.new ≡ standing denotation name.now scope.old) }
{
    match name {
        None => Ok(()),
        Some(name) => scope.bind(alloc, name, denotation),
    }
}

/// The parameters that a body sees besides its keywords.
pub fn bind_params(
    alloc: Global,
    params: &DraftParams,
    denotation: Denotation,
    first: u32,
    rest: u32,
    scope: &mut Scope,
) -> Result<(), AllocError>
    requires { first + length params.now.required.items < 2 ^ 32 }
    ensures { OnOk result (scope.new
        ≡ params_bound (seen_params params.now) denotation first rest scope.old) }
{
    bind_required(alloc, &params.required, first, scope)?;
    bind_standing(alloc, &params.next, denotation, scope)?;
    bind_name(alloc, &params.rest, rest, scope)
}

/// The number of a local that may be left out.
pub fn number_of<T>(local: &Option<T>, number: u32) -> Option<u32>
    ensures { result ≡ number_of local.now number }
{
    match local {
        None => None,
        Some(_) => Some(number),
    }
}

/// The number behind that of a local that may be left out. The one error is want of memory.
pub fn number_behind<T>(local: &Option<T>, number: u32) -> Result<u32, AllocError>
    ensures { IfOk result (λ next. next ≡ number + count local.now) }
{
    match local {
        None => Ok(number),
        Some(_) => match number.checked_add(1) {
            Some(next) => Ok(next),
            None => Err(AllocError),
        },
    }
}

/// How many locals it is.
pub fn count<T>(local: &Option<T>) -> usize
    ensures { result ≡ count local.now }
{
    match local {
        None => 0,
        Some(_) => 1,
    }
}

/// Local methods, numbered from a number on.
pub fn bind_methods(
    alloc: Global,
    methods: &Vec<(Token, DraftLambda)>,
    first: u32,
    scope: &mut Scope,
) -> Result<(), AllocError>
    requires { first + length methods.now.items < 2 ^ 32 }
    ensures { OnOk result (scope.new
        ≡ methods_bound (methods_of (map seen_method methods.now.items)) first scope.old) }
{
    let mut number = first;
    for (method, _lambda) in methods {
        scope.bind(alloc, method, Denotation::Local(number))?;
        number += 1;
    }
    Ok(())
}

fn variable_of(clause: &DraftForClause) -> &Token
    ensures { result.now ≡ variable_of (seen_clause clause.now) }
{
    match clause {
        DraftForClause::Then(variable, _, _, _) => variable,
        DraftForClause::In(variable, _, _) => variable,
        DraftForClause::From(variable, _, _, _, _) => variable,
    }
}

/// All variables of a `for`, numbered from a number on.
pub fn bind_variables(
    alloc: Global,
    clauses: &Vec<DraftForClause>,
    first: u32,
    scope: &mut Scope,
) -> Result<(), AllocError>
    requires { first + length clauses.now.items < 2 ^ 32 }
    ensures { OnOk result (scope.new
        ≡ variables_bound (clauses_of (map seen_clause clauses.now.items)) first scope.old) }
{
    let mut number = first;
    for clause in clauses {
        scope.bind(alloc, variable_of(clause), Denotation::Local(number))?;
        number += 1;
    }
    Ok(())
}

fn bind_kept_one(
    alloc: Global,
    clause: &DraftForClause,
    number: u32,
    scope: &mut Scope,
) -> Result<(), AllocError>
    ensures { OnOk result (scope.new ≡ kept_one (seen_clause clause.now) number scope.old) }
{
    match clause {
        DraftForClause::Then(variable, _, _, _) => {
            scope.bind(alloc, variable, Denotation::Local(number))
        }
        DraftForClause::In(_, _, _) => Ok(()),
        DraftForClause::From(variable, _, _, _, _) => {
            scope.bind(alloc, variable, Denotation::Local(number))
        }
    }
}

/// The variables of a `for` that its result sees, numbered as all of them are.
pub fn bind_kept(
    alloc: Global,
    clauses: &Vec<DraftForClause>,
    first: u32,
    scope: &mut Scope,
) -> Result<(), AllocError>
    requires { first + length clauses.now.items < 2 ^ 32 }
    ensures { OnOk result (scope.new
        ≡ kept_bound (clauses_of (map seen_clause clauses.now.items)) first scope.old) }
{
    let mut number = first;
    for clause in clauses {
        bind_kept_one(alloc, clause, number, scope)?;
        number += 1;
    }
    Ok(())
}

/// Gives numbers to the variables of `exception` clauses.
pub fn number_catches(
    clauses: &Vec<DraftBlockClause>,
    progress: &mut Progress,
) -> Result<(), AllocError>
    ensures { OnOk result (progress.new
        ≡ catches_numbered (catches_of (map seen_catch clauses.now.items)) progress.old) }
{
    for clause in clauses {
        take_numbers(progress, count(&clause.variable))?;
    }
    Ok(())
}
