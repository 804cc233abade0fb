//! The constructs of parameter lists, and local methods (DRM 6, "Parameter lists").

ghost use Rattle.std.specs.Prelude.{◌≡◌, flat_map};
ghost use Rattle.dy_rules.specs.SeenForms.{seen_keys, seen_method, seen_parameters};
ghost use Rattle.dy_rules.specs.Held.{held_key as key_tree, held_keys};
ghost use Rattle.dy_construct_parts.specs.Table.{first_absent};
ghost use Rattle.dy_constructs.specs.Bodies as bodies;
ghost use Rattle.dy_constructs.specs.Held.{held_key, held_method};

use crate::bodies::in_body;
use crate::expressions::in_maybe;
use dy_construct_parts::bindings::{in_all_required, in_results, in_variable};
use dy_construct_parts::construct::{Construct, absent, where_true};
use dy_construct_parts::parts::where_given;
use dy_tree::{Key, Keys, LocalMethod, Parameters};

#[cycle(trees)]
pub(crate) fn in_methods(methods: &Vec<LocalMethod>) -> Option<Construct>
    ensures { result ≡ first_absent (flat_map held_method methods.now.items) }
{
    let mut found = None;
    for method in methods {
        found = found.or(in_method(method));
    }
    found
}

/// A local method.
#[cycle(trees)]
fn in_method(method: &LocalMethod) -> Option<Construct>
    ensures { result ≡ first_absent (bodies.in_method (seen_method method.now)) }
{
    in_parameters(&method.parameters).or(in_body(&method.body))
}

#[cycle(trees)]
pub(crate) fn in_parameters(parameters: &Parameters) -> Option<Construct>
    ensures { result ≡ first_absent (bodies.in_parameters (seen_parameters parameters.now)) }
{
    in_all_required(&parameters.required)
        .or(where_given(Construct::NextParameter, &parameters.next))
        .or(where_given(Construct::RestParameter, &parameters.rest))
        .or(in_maybe_keys(&parameters.keys))
        .or(in_results(&parameters.results))
}

#[cycle(trees)]
fn in_maybe_keys(keys: &Option<Keys>) -> Option<Construct>
    ensures { result ≡ first_absent (bodies.in_keys (held_keys keys.now)) }
{
    match keys {
        None => None,
        Some(keys) => in_keys(keys),
    }
}

#[cycle(trees)]
fn in_keys(keys: &Keys) -> Option<Construct>
    ensures { result ≡ first_absent (bodies.in_keys (seen_keys keys.now)) }
{
    absent(Construct::KeyParameters)
        .or(in_key_row(&keys.keys))
        .or(where_true(Construct::AllKeys, keys.takes_all))
}

#[cycle(trees)]
fn in_key_row(keys: &Vec<Key>) -> Option<Construct>
    ensures { result ≡ first_absent (flat_map held_key keys.now.items) }
{
    let mut found = None;
    for key in keys {
        found = found.or(in_key(key));
    }
    found
}

#[cycle(trees)]
fn in_key(key: &Key) -> Option<Construct>
    ensures { result ≡ first_absent (bodies.in_key (key_tree key.now)) }
{
    where_given(Construct::NamedKeyword, &key.keyword)
        .or(in_variable(Construct::TypedKey, &key.variable))
        .or(in_maybe(Construct::KeyDefault, &key.default))
}
