//! Methods with their parameters (DRM 6, "Parameter lists").

ghost use Rattle.std.specs.Prelude.{◌≡◌, map, option_map, IfOk};
ghost use Rattle.dy_tree.specs.declared.expression.Keys.{out-Keys};
ghost use Rattle.dy_term.specs.Types.{seen_typed, seen_key, seen_params, seen_results};
ghost use Rattle.dy_term.specs.Drafts.{seen_term, seen_method, seen_lambda};
ghost use Rattle.dy_rules.specs.SeenTypes.{seen_required};
ghost use Rattle.dy_drafts.specs.Shapes as shapes;
ghost use Rattle.dy_rules.specs.SeenForms.{seen_parameters};
ghost use Rattle.dy_desugar.specs.Lists.{method_core, parameter_defaults, key_default, key_core};
ghost use Rattle.dy_desugar.specs.Lists.{keys_core, keys_all};
ghost use Rattle.dy_desugar.specs.Table as table;

use crate::bodies::{body_of, or_false};
use crate::expressions::maybe_term_of;
use dy_drafts::{copy_maybe, key_of, required_of, results_of};
use dy_term::{DraftKey, DraftLambda, DraftParams, DraftResults, DraftTerm, DraftType};
use dy_tree::{Key, Keys, LocalMethod, Parameters, Required, Token};
use std::alloc::{AllocError, Global};

/// Local methods with their names.
#[cycle(terms)]
pub(crate) fn methods_of(
    alloc: Global,
    methods: &Vec<LocalMethod>,
) -> Result<Vec<(Token, DraftLambda)>, AllocError>
    ensures { IfOk result (λ found. map seen_method found.items
        ≡ map method_core methods.now.items) }
{
    let mut found = Vec::new(alloc);
    for method in methods {
        found.push(method_of(alloc, method)?)?;
    }
    Ok(found)
}

/// A local method with its name.
#[cycle(terms)]
fn method_of(alloc: Global, method: &LocalMethod) -> Result<(Token, DraftLambda), AllocError>
    ensures { IfOk result (λ found. seen_method found ≡ method_core method.now) }
{
    let name = method.name.copy()?;
    let defaults = defaults_of(alloc, &method.parameters)?;
    let body = body_of(alloc, &method.body)?;
    let lambda = lambda_from(alloc, &method.parameters, defaults, body)?;
    Ok((name, lambda))
}

/// The defaults of the keyword parameters.
#[cycle(terms)]
pub fn defaults_of(alloc: Global, parameters: &Parameters) -> Result<Vec<DraftTerm>, AllocError>
    ensures { IfOk result (λ defaults. map seen_term defaults.items
        ≡ parameter_defaults parameters.now) }
{
    match &parameters.keys {
        None => Ok(Vec::new(alloc)),
        Some(keys) => keys_defaults(alloc, keys),
    }
}

/// The defaults of keyword parameters, which are `#f` where none is written.
#[cycle(terms)]
fn keys_defaults(alloc: Global, keys: &Keys) -> Result<Vec<DraftTerm>, AllocError>
    ensures { IfOk result (λ defaults. map seen_term defaults.items
        ≡ map key_default (out-Keys keys.now).keys.items) }
{
    let mut defaults = Vec::new(alloc);
    for key in &keys.keys {
        let default = maybe_term_of(alloc, &key.default)?;
        defaults.push(or_false(default))?;
    }
    Ok(defaults)
}

/// Required parameters.
fn required_in(
    alloc: Global,
    required: &Vec<Required>,
) -> Result<Vec<(Token, DraftType)>, AllocError>
    ensures { IfOk result (λ found. map seen_typed found.items
        ≡ map shapes.required_of (map seen_required required.now.items)) }
{
    let mut found = Vec::new(alloc);
    for one in required {
        found.push(required_of(alloc, one)?)?;
    }
    Ok(found)
}

/// Keyword parameters.
fn keys_of(alloc: Global, keys: &Vec<Key>) -> Result<Vec<DraftKey>, AllocError>
    ensures { IfOk result (λ found. map seen_key found.items ≡ map key_core keys.now.items) }
{
    let mut found = Vec::new(alloc);
    for key in keys {
        found.push(key_of(alloc, &key.keyword, &key.variable)?)?;
    }
    Ok(found)
}

/// Keyword parameters, where `#key` is written.
fn keywords_of(alloc: Global, keys: &Option<Keys>) -> Result<Option<Vec<DraftKey>>, AllocError>
    ensures { IfOk result (λ found. option_map (λ keys. map seen_key keys.items) found
        ≡ keys_core keys.now) }
{
    match keys {
        None => Ok(None),
        Some(keys) => Ok(Some(keys_of(alloc, &keys.keys)?)),
    }
}

/// Whether every keyword is taken.
fn takes_all(keys: &Option<Keys>) -> bool
    ensures { result ≡ keys_all keys.now }
{
    match keys {
        None => false,
        Some(keys) => keys.takes_all,
    }
}

/// A parameter list, without the defaults.
#[tactic(auto, using(crate::proofs::Parameters::at_parameters))]
pub fn params_of(alloc: Global, parameters: &Parameters) -> Result<DraftParams, AllocError>
    ensures { IfOk result (λ found. seen_params found
        ≡ table.params_of (seen_parameters parameters.now)) }
{
    let required = required_in(alloc, &parameters.required)?;
    let next = copy_maybe(&parameters.next)?;
    let rest = copy_maybe(&parameters.rest)?;
    let keys = keywords_of(alloc, &parameters.keys)?;
    Ok(DraftParams {
        required,
        next,
        rest,
        keys,
        all_keys: takes_all(&parameters.keys),
    })
}

/// The results that a parameter list ends with.
#[tactic(auto, using(crate::proofs::Parameters::at_results))]
pub fn returned_of(alloc: Global, parameters: &Parameters) -> Result<DraftResults, AllocError>
    ensures { IfOk result (λ found. seen_results found
        ≡ table.returned_of (seen_parameters parameters.now)) }
{
    results_of(alloc, &parameters.results)
}

/// A body with its parameters.
pub fn lambda_from(
    alloc: Global,
    parameters: &Parameters,
    defaults: Vec<DraftTerm>,
    body: DraftTerm,
) -> Result<DraftLambda, AllocError>
    ensures { IfOk result (λ found. seen_lambda found
        ≡ table.lambda_from (seen_parameters parameters.now) (map seen_term defaults.items)
        (seen_term body)) }
{
    let params = params_of(alloc, parameters)?;
    let results = returned_of(alloc, parameters)?;
    Ok(DraftLambda {
        params,
        defaults,
        body,
        results,
    })
}
