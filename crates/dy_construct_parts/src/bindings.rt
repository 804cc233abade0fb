//! The constructs of what binds names (DRM 4, "Local binding"; DRM 6, "Parameter lists").

ghost use Rattle.std.specs.Prelude.{◌≡◌, flat_map, map, option_map};
ghost use Rattle.dy_rules.specs.SeenTypes.{seen_required, seen_results, seen_target, seen_type};
ghost use Rattle.dy_rules.specs.SeenTypes.{seen_variable};
ghost use Rattle.dy_construct_parts.specs.Table.{first_absent};
ghost use Rattle.dy_construct_parts.specs.Parts as parts;

use crate::construct::{Construct, absent, by_count};
use crate::parts::{in_single, where_given};
use crate::types::in_type;
use dy_tree::{Required, Results, Target, TypeForm, Variable};

/// A type that is declared, by which what is declared is this construct.
pub fn in_declared(typed: Construct, declared: &Option<TypeForm>) -> Option<Construct>
    ensures { result ≡ first_absent (parts.in_declared typed (option_map seen_type declared.now)) }
{
    match declared {
        None => None,
        Some(form) => absent(typed).or(in_type(form)),
    }
}

/// What is bound with a type, or without.
pub fn in_variable(typed: Construct, variable: &Variable) -> Option<Construct>
    ensures { result ≡ first_absent (parts.in_variable typed (seen_variable variable.now)) }
{
    in_declared(typed, &variable.declared)
}

fn in_variables(typed: Construct, variables: &Vec<Variable>) -> Option<Construct>
    ensures { result
        ≡ first_absent
        (flat_map (parts.in_variable typed) (map seen_variable variables.now.items)) }
{
    let mut found = None;
    for variable in variables {
        found = found.or(in_variable(typed, variable));
    }
    found
}

/// What a `let`, a constant or a variable binds.
pub fn in_target(target: &Target) -> Option<Construct>
    ensures { result ≡ first_absent (parts.in_target (seen_target target.now)) }
{
    match target {
        Target::One(variable) => in_variable(Construct::TypedVariable, variable),
        Target::Several(bound) => absent(Construct::SeveralVariables)
            .or(in_variables(Construct::TypedVariable, &bound.variables))
            .or(where_given(Construct::RestVariable, &bound.rest)),
    }
}

fn in_required(required: &Required) -> Option<Construct>
    ensures { result ≡ first_absent (parts.in_required (seen_required required.now)) }
{
    match required {
        Required::Variable(variable) => absent(Construct::RequiredParameter).or(in_variable(
            Construct::TypedParameter,
            variable,
        )),
        Required::Single { single, .. } => absent(Construct::RequiredParameter)
            .or(absent(Construct::SingletonParameter))
            .or(in_single(single)),
    }
}

fn in_each_required(required: &Vec<Required>) -> Option<Construct>
    ensures { result
        ≡ first_absent (flat_map parts.in_required (map seen_required required.now.items)) }
{
    let mut found = None;
    for one in required {
        found = found.or(in_required(one));
    }
    found
}

/// The required parameters of a list.
pub fn in_all_required(required: &Vec<Required>) -> Option<Construct>
    ensures { result ≡ first_absent (parts.in_all_required (map seen_required required.now.items)) }
{
    by_count(
        Construct::NoParameter,
        Construct::SeveralParameters,
        required.len(),
    )
    .or(in_each_required(required))
}

fn in_rest_result(rest: &Option<Variable>) -> Option<Construct>
    ensures { result ≡ first_absent (parts.in_rest_result (option_map seen_variable rest.now)) }
{
    match rest {
        None => None,
        Some(variable) => {
            absent(Construct::RestResult).or(in_variable(Construct::TypedResult, variable))
        }
    }
}

fn in_given(results: &Results) -> Option<Construct>
    ensures { result ≡ first_absent (parts.in_given (seen_results results.now)) }
{
    match results {
        Results::Several { variables, rest } => absent(Construct::Results)
            .or(in_variables(Construct::TypedResult, variables))
            .or(in_rest_result(rest)),
        Results::One(variable) => {
            absent(Construct::Results).or(in_variable(Construct::TypedResult, variable))
        }
    }
}

/// What a method gives.
pub fn in_results(results: &Option<Results>) -> Option<Construct>
    ensures { result ≡ first_absent (parts.in_results (option_map seen_results results.now)) }
{
    match results {
        None => None,
        Some(results) => in_given(results),
    }
}
