//! The constructs of the clauses of a `block` and of a `for` (DRM 7, "block", "for").

ghost use Rattle.std.specs.Prelude.{◌≡◌, flat_map};
ghost use Rattle.dy_rules.specs.SeenForms.{seen_clause, seen_for_clause};
ghost use Rattle.dy_rules.specs.Held.{held_limit, held_stop};
ghost use Rattle.dy_construct_parts.specs.Table.{first_absent};
ghost use Rattle.dy_constructs.specs.Bodies as bodies;
ghost use Rattle.dy_constructs.specs.Held.{held_clause, held_loop_clause};

use crate::bodies::in_body;
use crate::expressions::{in_maybe, in_value};
use dy_construct_parts::bindings::in_variable;
use dy_construct_parts::construct::{Construct, absent};
use dy_construct_parts::types::in_type;
use dy_tree::{BlockClause, ForClause, Limit, Stop};

/// The clauses of a `block`.
#[cycle(trees)]
pub(crate) fn in_clauses(clauses: &Vec<BlockClause>) -> Option<Construct>
    ensures { result ≡ first_absent (flat_map held_clause clauses.now.items) }
{
    let mut found = None;
    for clause in clauses {
        found = found.or(in_clause(clause));
    }
    found
}

#[cycle(trees)]
fn in_clause(clause: &BlockClause) -> Option<Construct>
    ensures { result ≡ first_absent (bodies.in_clause (seen_clause clause.now)) }
{
    match clause {
        BlockClause::Afterwards { body } => absent(Construct::Afterwards).or(in_body(body)),
        BlockClause::Cleanup { body } => absent(Construct::Cleanup).or(in_body(body)),
        BlockClause::Exception {
            condition,
            body,
            ..
        } => absent(Construct::ExceptionClause)
            .or(in_type(condition))
            .or(in_body(body)),
    }
}

/// The clauses of a `for`.
#[cycle(trees)]
pub(crate) fn in_loop(clauses: &Vec<ForClause>) -> Option<Construct>
    ensures { result ≡ first_absent (flat_map held_loop_clause clauses.now.items) }
{
    let mut found = None;
    for clause in clauses {
        found = found.or(in_loop_clause(clause));
    }
    found
}

#[cycle(trees)]
fn in_loop_clause(clause: &ForClause) -> Option<Construct>
    ensures { result ≡ first_absent (bodies.in_loop_clause (seen_for_clause clause.now)) }
{
    match clause {
        ForClause::Then {
            variable,
            first,
            next,
        } => absent(Construct::ThenClause)
            .or(in_variable(Construct::TypedVariable, variable))
            .or(in_value(first))
            .or(in_value(next)),
        ForClause::In {
            variable,
            collection,
        } => absent(Construct::InClause)
            .or(in_variable(Construct::TypedVariable, variable))
            .or(in_value(collection)),
        ForClause::From {
            variable,
            start,
            limit,
            step,
        } => absent(Construct::FromClause)
            .or(in_variable(Construct::TypedVariable, variable))
            .or(in_value(start))
            .or(in_limit(limit))
            .or(in_maybe(Construct::Step, step)),
    }
}

/// Where the numbers of a `for` end, if it is written.
#[cycle(trees)]
fn in_limit(limit: &Option<Limit>) -> Option<Construct>
    ensures { result ≡ first_absent (bodies.in_limit (held_limit limit.now)) }
{
    match limit {
        None => None,
        Some(limit) => absent(Construct::Limit).or(in_value(&limit.bound)),
    }
}

/// The test that ends a `for`, if it is written.
#[cycle(trees)]
pub(crate) fn in_stop(stop: &Option<Box<Stop>>) -> Option<Construct>
    ensures { result ≡ first_absent (bodies.in_stop (held_stop stop.now)) }
{
    match stop {
        None => None,
        Some(stop) => absent(Construct::Stop).or(in_value(&stop.test)),
    }
}
