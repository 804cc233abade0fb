//! The constructs of bodies (DRM 4, "Local binding").

ghost use Rattle.std.specs.Prelude.{◌≡◌, flat_map};
ghost use Rattle.dy_rules.specs.SeenForms.{seen_item};
ghost use Rattle.dy_rules.specs.Held.{held_body, held_last};
ghost use Rattle.dy_construct_parts.specs.Table.{first_absent};
ghost use Rattle.dy_constructs.specs.Bodies as bodies;
ghost use Rattle.dy_constructs.specs.Held.{held_item};

use crate::expressions::in_value;
use crate::parameters::in_methods;
use dy_construct_parts::bindings::in_target;
use dy_construct_parts::construct::{Construct, absent, by_count};
use dy_construct_parts::types::in_type;
use dy_tree::Item;

#[cycle(trees)]
pub(crate) fn in_body(body: &Vec<Item>) -> Option<Construct>
    ensures { result ≡ first_absent (bodies.in_body (held_body body.now)) }
{
    by_count(Construct::EmptyBody, Construct::SeveralItems, body.len()).or(in_items(body))
}

#[cycle(trees)]
fn in_items(items: &Vec<Item>) -> Option<Construct>
    ensures { result ≡ first_absent (flat_map held_item items.now.items) }
{
    let mut found = None;
    for item in items {
        found = found.or(in_item(item));
    }
    found
}

#[cycle(trees)]
fn in_item(item: &Item) -> Option<Construct>
    ensures { result ≡ first_absent (bodies.in_item (seen_item item.now)) }
{
    match item {
        Item::Let { target, value, .. } => absent(Construct::Let)
            .or(in_target(target))
            .or(in_value(value)),
        Item::Handler {
            condition,
            handler,
            ..
        } => absent(Construct::LetHandler)
            .or(in_type(condition))
            .or(in_value(handler)),
        Item::Local { methods, .. } => absent(Construct::LocalMethods).or(in_methods(methods)),
        Item::Expression(expression) => in_value(expression),
    }
}

/// The last part of an `if`.
#[cycle(trees)]
pub(crate) fn in_else(body: &Option<Vec<Item>>) -> Option<Construct>
    ensures { result ≡ first_absent (bodies.in_else (held_last body.now)) }
{
    match body {
        None => absent(Construct::NoElse),
        Some(body) => in_body(body),
    }
}

/// A last body that may be left out, which is this construct where it stands.
#[cycle(trees)]
pub(crate) fn in_last(construct: Construct, body: &Option<Vec<Item>>) -> Option<Construct>
    ensures { result ≡ first_absent (bodies.in_last construct (held_last body.now)) }
{
    match body {
        None => None,
        Some(body) => absent(construct).or(in_body(body)),
    }
}
