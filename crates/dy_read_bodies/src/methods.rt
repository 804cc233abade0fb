//! Methods: parameters, results and a body.

ghost use Rattle.std.specs.Prelude.{◌≡◌, ℕ, max, IfOk, option_map};
ghost use Rattle.dy_tree.specs.Fragments.{seen_fragments};
ghost use Rattle.dy_rules.specs.Depth.{parameters_depth};
ghost use Rattle.dy_rules.specs.Fragments.{items_of};
ghost use Rattle.dy_rules.specs.Signatures as signatures;
ghost use Rattle.dy_read_bodies.specs.MethodParts.{with_trees, with_name, name_read, IsNameWithin};
ghost use Rattle.dy_read_arms.specs.BodyDepths.{BodyDepth};
ghost use Rattle.dy_read_parts.specs.Nesting.{nesting};
ghost use Rattle.dy_read_arms.specs.ReadBodies.{read_parameters, read_items};
ghost use Rattle.dy_read_statements.specs.ReadMethods.{read_parts, capped_parts, parts_of};
ghost use Rattle.dy_read_statements.specs.ReadMethods.{read_named, capped_named, named_parts};
ghost use Rattle.dy_read_statements.specs.ReadMethods.{MethodReadDepth, NamedDepth};

use crate::bodies::body;
use crate::signatures::signature_front;
use dy_read_parts::names::name_at;
use dy_read_parts::trim::without_front;
use dy_read_statements::method_read::{MethodRead, NamedRead};
use dy_tree::{Fragment, Item, Parameters, Splitting, Token};
use std::alloc::{AllocError, Global};

/// A name, and what stands behind it.
#[derive(Clone, Copy, Debug)]
struct NameFront<'a> {
    name: &'a Token,
    rest: &'a [Fragment],
}

/// Parameters with what was read of the body behind them.
fn method_of(parameters: Parameters, body: Option<Vec<Item>>) -> Option<MethodRead>
    ensures found { option_map read_parts result
        ≡ option_map (with_trees (read_parameters parameters)) (option_map read_items body) }
    ensures depth { (outer old new : ℕ)
        → old ≡ max outer (parameters_depth (read_parameters parameters)) → BodyDepth old new body
        → MethodReadDepth outer new result }
{
    match body {
        Some(body) => Some(MethodRead { parameters, body }),
        None => None,
    }
}

/// Parameters, results and a body.
#[cycle(read)]
pub fn method(
    alloc: Global,
    fragments: &[Fragment],
    depth: &mut usize,
) -> Result<Option<MethodRead>, AllocError>
    ensures found { IfOk result
        (λ found. option_map read_parts found
        ≡ option_map capped_parts
        (option_map parts_of (signatures.method_items (items_of (seen_fragments fragments.now))))) }
    ensures depth { IfOk result (λ found. MethodReadDepth depth.old depth.new found) }
{
    match signature_front(alloc, fragments, depth)? {
        Some(front) => {
            let items = body(alloc, Splitting::Nothing, without_front(front.rest), depth)?;
            Ok(method_of(front.parameters, items))
        }
        None => Ok(None),
    }
}

/// A method with its name.
fn named_of(name: Token, method: Option<MethodRead>) -> Option<NamedRead>
    ensures found { option_map read_named result
        ≡ option_map (with_name name) (option_map read_parts method) }
    ensures depth { (old new : ℕ) → MethodReadDepth old new method → NamedDepth old new result }
{
    match method {
        Some(method) => Some(NamedRead { name, method }),
        None => None,
    }
}

/// The name in front, and what stands behind it.
#[tactic(auto, using(crate::proofs::MethodParts::name_reads))]
fn name_front(fragments: &[Fragment]) -> Option<NameFront<'_>>
    ensures name { signatures.named_items (items_of (seen_fragments fragments.now))
        ≡ name_read result }
    ensures nested { IsNameWithin (nesting (seen_fragments fragments.now)) result }
{
    match fragments.split_first() {
        Some((first, rest)) => match name_at(first) {
            Some(name) => Some(NameFront { name, rest }),
            None => None,
        },
        None => None,
    }
}

/// A method behind its name.
#[cycle(read)]
pub fn named_method(
    alloc: Global,
    fragments: &[Fragment],
    depth: &mut usize,
) -> Result<Option<NamedRead>, AllocError>
    ensures found { IfOk result
        (λ found. option_map read_named found
        ≡ option_map capped_named
        (option_map named_parts (signatures.named_items
        (items_of (seen_fragments fragments.now))))) }
    ensures depth { IfOk result (λ found. NamedDepth depth.old depth.new found) }
{
    match name_front(fragments) {
        Some(front) => {
            let name = front.name.copy()?;
            Ok(named_of(name, method(alloc, front.rest, depth)?))
        }
        None => Ok(None),
    }
}
