//! Generic functions, methods, domains, variables and forms that run.

ghost use Rattle.std.specs.Prelude.{◌≡◌, map, option_map, IfOk, OnOk};
ghost use Rattle.dy_term.specs.Types.{seen_typed, seen_key, seen_params};
ghost use Rattle.dy_term.specs.Rows.{seen_generic, seen_definition, seen_domain, seen_variable};
ghost use Rattle.dy_term.specs.Rows.{seen_top};
ghost use Rattle.dy_binding.specs.Types.{read_types, key_list};
ghost use Rattle.dy_rows.specs.Rows.{read_shape, read_generic, method_rows, read_method};
ghost use Rattle.dy_rows.specs.Rows.{read_domain, read_variable, read_variables, read_top};

use crate::copies::{copy_params, copy_results, copy_types};
use crate::owners::{bound_to, generic_of, has};
use dy_base::{BindingId, GenericId, Items, fold};
use dy_binding::{
    Progress, bind_standing, read_list, read_required, read_results, read_type, shape_of,
};
use dy_names::{Denotation, Environment, Scope};
use dy_scope::{lambda_term, term};
use dy_term::{
    DomainRow, DraftDomain, DraftGeneric, DraftKey, DraftMethod, DraftParams, DraftTop, DraftType,
    DraftVariable, GenericRow, Lambda, MethodCode, MethodRow, Params, Row, TopTerm, VariableRow,
};
use dy_tree::Token;
use std::alloc::{AllocError, Global};

/// Reads the types of keywords for what is wrong with them.
fn check_keys<E: Environment>(
    alloc: Global,
    environment: &E,
    keys: &Option<Vec<DraftKey>>,
    scope: &Scope,
    progress: &mut Progress,
) -> Result<(), AllocError>
    ensures { OnOk result (progress.new
        ≡ (read_types (E.outside environment.now)
        (map (λ k. k.declared) (key_list (option_map (λ keys. map seen_key keys.items) keys.now)))
        scope.now progress.old).1) }
{
    match keys {
        None => Ok(()),
        Some(keys) => check_each(alloc, environment, keys, scope, progress),
    }
}

fn check_each<E: Environment>(
    alloc: Global,
    environment: &E,
    keys: &Vec<DraftKey>,
    scope: &Scope,
    progress: &mut Progress,
) -> Result<(), AllocError>
    ensures { OnOk result (progress.new
        ≡ (read_types (E.outside environment.now)
        (map (λ k. k.declared) (map seen_key keys.now.items)) scope.now progress.old).1) }
{
    for key in keys {
        let _declared = read_type(alloc, environment, &key.declared, scope, progress)?;
    }
    Ok(())
}

fn shape<E: Environment>(
    alloc: Global,
    environment: &E,
    params: &DraftParams,
    scope: &Scope,
    progress: &mut Progress,
) -> Result<Params, AllocError>
    ensures shape { IfOk result
        (λ found. found ≡ (read_shape (E.outside environment.now)
        (seen_params params.now) scope.now progress.old).0) }
    ensures after { OnOk result
        (progress.new ≡ (read_shape (E.outside environment.now)
        (seen_params params.now) scope.now progress.old).1) }
{
    let required = read_required(alloc, environment, &params.required, scope, progress)?;
    check_keys(alloc, environment, &params.keys, scope, progress)?;
    shape_of(alloc, params, required)
}

/// The row of a generic function.
pub fn generic_rows<E: Environment>(
    alloc: Global,
    environment: &E,
    draft: &DraftGeneric,
    scope: &mut Scope,
    progress: &mut Progress,
) -> Result<Items<Row>, AllocError>
    ensures rows { IfOk result
        (λ found. found ≡ (read_generic (E.outside environment.now)
        (seen_generic draft.now) scope.old progress.old).0) }
    ensures after { OnOk result
        (progress.new ≡ (read_generic (E.outside environment.now)
        (seen_generic draft.now) scope.old progress.old).1) }
    ensures same { OnOk result (scope.new ≡ scope.old) }
{
    let params = shape(alloc, environment, &draft.params, scope, progress)?;
    let results = read_results(alloc, environment, &draft.results, scope, progress)?;
    let mut rows = Items::new(alloc);
    rows.push(Row::Generic(GenericRow {
        name: fold(alloc, draft.name.text.bytes())?,
        is_open: has(b"open", &draft.adjectives),
        params,
        results,
    }))?;
    Ok(rows)
}

fn rows_of_method(
    alloc: Global,
    generic: GenericId,
    lambda: Lambda,
    is_sealed: bool,
) -> Result<Items<Row>, AllocError>
    ensures { IfOk result (λ rows. rows ≡ method_rows generic lambda is_sealed) }
{
    let types = copy_types(alloc, &lambda.params.required)?;
    let mut rows = Items::new(alloc);
    rows.push(Row::Method(MethodRow {
        generic,
        params: copy_params(alloc, &lambda.params)?,
        results: copy_results(alloc, &lambda.results)?,
        code: MethodCode::Dylan(lambda),
    }))?;
    if is_sealed {
        rows.push(Row::Domain(DomainRow {
            generic,
            types,
            result: None,
        }))?;
    }
    Ok(rows)
}

/// The row of a method, and that of the domain of its specializers where it is sealed.
pub fn method_rows<E: Environment>(
    alloc: Global,
    environment: &E,
    draft: &DraftMethod,
    scope: &mut Scope,
    progress: &mut Progress,
) -> Result<Items<Row>, AllocError>
    ensures rows { IfOk result
        (λ found. found ≡ (read_method (E.outside environment.now)
        (seen_definition draft.now) scope.old progress.old).0) }
    ensures after { OnOk result
        (progress.new ≡ (read_method (E.outside environment.now)
        (seen_definition draft.now) scope.old progress.old).1) }
    ensures same { OnOk result (scope.new ≡ scope.old) }
{
    let outside = scope.len();
    let generic = generic_of(alloc, environment, &draft.generic, progress)?;
    let next = Denotation::NextMethod;
    bind_standing(alloc, &draft.next, next, scope)?;
    let lambda = lambda_term(alloc, environment, &draft.code, next, scope, progress)?;
    scope.leave_to(outside);
    let is_sealed = has(b"sealed", &draft.adjectives);
    rows_of_method(alloc, generic, lambda, is_sealed)
}

/// The row of a sealed domain.
pub fn domain_rows<E: Environment>(
    alloc: Global,
    environment: &E,
    draft: &DraftDomain,
    scope: &mut Scope,
    progress: &mut Progress,
) -> Result<Items<Row>, AllocError>
    ensures rows { IfOk result
        (λ found. found ≡ (read_domain (E.outside environment.now)
        (seen_domain draft.now) scope.old progress.old).0) }
    ensures after { OnOk result
        (progress.new ≡ (read_domain (E.outside environment.now)
        (seen_domain draft.now) scope.old progress.old).1) }
    ensures same { OnOk result (scope.new ≡ scope.old) }
{
    let generic = generic_of(alloc, environment, &draft.generic, progress)?;
    let types = read_list(alloc, environment, &draft.types, scope, progress)?;
    let mut rows = Items::new(alloc);
    rows.push(Row::Domain(DomainRow {
        generic,
        types,
        result: None,
    }))?;
    Ok(rows)
}

/// The row of a function, or of a constant that stands for a type.
pub fn variable_rows<E: Environment>(
    alloc: Global,
    environment: &E,
    draft: &DraftVariable,
    scope: &mut Scope,
    progress: &mut Progress,
) -> Result<Items<Row>, AllocError>
    ensures rows { IfOk result
        (λ found. found ≡ (read_variable (E.outside environment.now)
        (seen_variable draft.now) scope.old progress.old).0) }
    ensures after { OnOk result
        (progress.new ≡ (read_variable (E.outside environment.now)
        (seen_variable draft.now) scope.old progress.old).1) }
    ensures same { OnOk result (scope.new ≡ scope.old) }
{
    let mut rows = Items::new(alloc);
    match draft {
        DraftVariable::Function(_, name, code) => {
            let declared = read_type(alloc, environment, &DraftType::Object, scope, progress)?;
            let none = Denotation::NoMethod;
            let lambda = lambda_term(alloc, environment, code, none, scope, progress)?;
            rows.push(Row::Variable(VariableRow {
                name: fold(alloc, name.text.bytes())?,
                declared,
                is_constant: true,
                function: Some(lambda),
                named: None,
                builtin: None,
            }))?;
            Ok(rows)
        }
        DraftVariable::Type(name, declared, meant) => {
            let declared = read_type(alloc, environment, declared, scope, progress)?;
            let meant = read_type(alloc, environment, meant, scope, progress)?;
            rows.push(Row::Variable(VariableRow {
                name: fold(alloc, name.text.bytes())?,
                declared,
                is_constant: true,
                function: None,
                named: Some(meant),
                builtin: None,
            }))?;
            Ok(rows)
        }
    }
}

/// The rows of variables or constants, and their bindings.
fn rows_of_variables<E: Environment>(
    alloc: Global,
    environment: &E,
    is_constant: bool,
    typed: &Vec<(Token, DraftType)>,
    scope: &Scope,
    progress: &mut Progress,
) -> Result<(Items<Row>, Items<BindingId>), AllocError>
    ensures rows { IfOk result
        (λ found. found.0 ≡ (read_variables (E.outside environment.now) is_constant
        (map seen_typed typed.now.items) scope.now progress.old).0.0) }
    ensures bindings { IfOk result
        (λ found. found.1 ≡ (read_variables (E.outside environment.now) is_constant
        (map seen_typed typed.now.items) scope.now progress.old).0.1) }
    ensures after { OnOk result
        (progress.new ≡ (read_variables (E.outside environment.now) is_constant
        (map seen_typed typed.now.items) scope.now progress.old).1) }
{
    let mut rows = Items::new(alloc);
    let mut bindings = Items::new(alloc);
    for (name, declared) in typed {
        let declared = read_type(alloc, environment, declared, scope, progress)?;
        bindings.push(bound_to(alloc, environment, name, progress)?)?;
        rows.push(Row::Variable(VariableRow {
            name: fold(alloc, name.text.bytes())?,
            declared,
            is_constant,
            function: None,
            named: None,
            builtin: None,
        }))?;
    }
    Ok((rows, bindings))
}

/// The rows of a form that runs: those of the variables or constants that it sets, and its own.
pub fn top_rows<E: Environment>(
    alloc: Global,
    environment: &E,
    draft: &DraftTop,
    scope: &mut Scope,
    progress: &mut Progress,
) -> Result<Items<Row>, AllocError>
    ensures rows { IfOk result
        (λ found. found ≡ (read_top (E.outside environment.now)
        (seen_top draft.now) scope.old progress.old).0) }
    ensures after { OnOk result
        (progress.new ≡ (read_top (E.outside environment.now)
        (seen_top draft.now) scope.old progress.old).1) }
    ensures same { OnOk result (scope.new ≡ scope.old) }
{
    match draft {
        DraftTop::Init {
            is_constant,
            variables,
            term: draft,
        } => {
            let (mut rows, bindings) = rows_of_variables(
                alloc,
                environment,
                *is_constant,
                variables,
                scope,
                progress,
            )?;
            let term = term(alloc, environment, draft, scope, progress)?;
            rows.push(Row::Top(TopTerm::Init(bindings, term)))?;
            Ok(rows)
        }
        DraftTop::Run(draft) => {
            let term = term(alloc, environment, draft, scope, progress)?;
            let mut rows = Items::new(alloc);
            rows.push(Row::Top(TopTerm::Run(term)))?;
            Ok(rows)
        }
    }
}
