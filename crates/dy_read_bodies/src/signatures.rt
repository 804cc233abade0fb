//! The parameters and the results of methods.

ghost use Rattle.std.specs.Prelude.{◌≡◌, ℕ, max, IfOk, option_map, option_and_then};
ghost use Rattle.dy_tree.specs.Fragments.{seen_fragments};
ghost use Rattle.dy_rules.specs.Depth.{parameters_depth, results_depth};
ghost use Rattle.dy_rules.specs.Fragments.{items_of};
ghost use Rattle.dy_read_bodies.specs.Listed.{read_listed, listed_depth, ListedDepth};
ghost use Rattle.dy_read_parts.specs.Nesting.{nesting};
ghost use Rattle.dy_read_arms.specs.ReadBodies.{read_parameters};
ghost use Rattle.dy_read_types.specs.Results as given;
ghost use Rattle.dy_read_types.specs.Results.{read_results};
ghost use Rattle.dy_read_bodies.specs.SignatureFronts as spec;
ghost use Rattle.dy_read_bodies.specs.SignatureFronts.{seen_signature, capped_signature};
ghost use Rattle.dy_read_bodies.specs.SignatureFronts.{signature_items, signature_behind};
ghost use Rattle.dy_read_bodies.specs.SignatureFronts.{SignatureDepth, IsRestWithin};

use crate::listed::{listed_items, no_defaults};
use crate::parameters::parameters_of;
use dy_read_parts::front::headed;
use dy_read_statements::listed_read::ListedRead;
use dy_read_statements::signature_front::SignatureFront;
use dy_read_types::results::{ResultsFront, results_front};
use dy_tree::{Fragment, Parameters};
use std::alloc::{AllocError, Global};

fn with_results<'a>(listed: ListedRead, front: ResultsFront<'a>) -> SignatureFront<'a>
    ensures front { seen_signature result
        ≡ spec.signature_of (read_listed listed) (given.seen_front front.entry) }
    ensures depth { parameters_depth (read_parameters result.parameters)
        ≡ max (listed_depth (read_listed listed))
        (results_depth (option_map read_results front.entry.results)) }
    ensures rest { result.rest.now ≡ front.entry.rest.now }
{
    let is_plain = no_defaults(&listed);
    SignatureFront {
        parameters: parameters_of(listed, front.results),
        is_plain,
        rest: front.rest,
    }
}

/// Parameters with what was read of their results.
fn signature_of<'a>(
    listed: ListedRead,
    front: Option<ResultsFront<'a>>,
) -> Option<SignatureFront<'a>>
    ensures front { option_map seen_signature result
        ≡ option_map (spec.signature_of (read_listed listed))
        (option_map given.seen_front front.entry) }
    ensures depth { (outer old new : ℕ) → given.FrontDepth old new front.entry
        → old ≡ max outer (listed_depth (read_listed listed)) → SignatureDepth outer new result }
    ensures nested { (n : ℕ) → given.IsRestWithin n front.entry → IsRestWithin n result }
{
    match front {
        Some(front) => Some(with_results(listed, front)),
        None => None,
    }
}

/// The results behind parameters.
#[tactic(auto, using(crate::proofs::Rests::results_rest))]
fn signature_listed<'a>(
    alloc: Global,
    listed: Option<ListedRead>,
    rest: &'a [Fragment],
    depth: &mut usize,
) -> Result<Option<SignatureFront<'a>>, AllocError>
    ensures front { IfOk result
        (λ found. option_map seen_signature found
        ≡ option_and_then (signature_behind (items_of (seen_fragments rest.now)))
        (option_map read_listed listed)) }
    ensures depth { IfOk result
        (λ found. (outer : ℕ) → ListedDepth outer depth.old listed
        → SignatureDepth outer depth.new found) }
    ensures nested { IfOk result (λ found. IsRestWithin (nesting (seen_fragments rest.now)) found) }
{
    match listed {
        Some(listed) => Ok(signature_of(listed, results_front(alloc, rest, depth)?)),
        None => Ok(None),
    }
}

/// Parameters between brackets and their results, and what stands behind them.
#[cycle(read)]
pub fn signature_front<'a>(
    alloc: Global,
    fragments: &'a [Fragment],
    depth: &mut usize,
) -> Result<Option<SignatureFront<'a>>, AllocError>
    ensures front { IfOk result
        (λ found. option_map seen_signature found
        ≡ option_map capped_signature (signature_items (items_of (seen_fragments fragments.now)))) }
    ensures depth { IfOk result (λ found. SignatureDepth depth.old depth.new found) }
    ensures nested { IfOk result
        (λ found. IsRestWithin (nesting (seen_fragments fragments.now)) found) }
{
    match headed(fragments) {
        Some(front) => {
            let listed = listed_items(alloc, front.inner, depth)?;
            signature_listed(alloc, listed, front.rest, depth)
        }
        None => Ok(None),
    }
}
