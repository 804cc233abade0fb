//! Parameter lists.

ghost use Rattle.std.specs.Prelude.{◌≡◌, Some, ℕ, max, IfOk, option_map};
ghost use Rattle.dy_tree.specs.Fragments.{seen_fragments};
ghost use Rattle.dy_rules.specs.Depth.{required_depth};
ghost use Rattle.dy_rules.specs.Forms as forms;
ghost use Rattle.dy_rules.specs.Fragments.{items_of};
ghost use Rattle.dy_rules.specs.Signatures as signatures;
ghost use Rattle.dy_rules.specs.Signatures.{no_list, listed_keys};
ghost use Rattle.dy_read_bodies.specs.Listed.{read_listed, ListedDepth};
ghost use Rattle.dy_read_shapes.specs.ListHeads.{capped_listed, read_each_required, heads_before};
ghost use Rattle.dy_read_shapes.specs.ReadKeys.{read_each_key, read_keys, KeysDepth};

use crate::keys::keys_from;
use dy_read_shapes::keys_read::KeysRead;
use dy_read_shapes::list_heads::{ListHeads, list_front};
use dy_read_statements::listed_read::ListedRead;
use dy_tree::{Fragment, Key, Required, Token};
use std::alloc::{AllocError, Global};

/// Parameters without `#key`.
#[tactic(auto, using(dy_read_shapes::proofs::ListHeads::all_before))]
fn without_keys(heads: ListHeads) -> ListedRead
    ensures found { Some (read_listed result) ≡ heads_before heads (Some no_list) }
    ensures depth { (outer old : ℕ)
        → old ≡ max outer (required_depth (read_each_required heads.required.items))
        → ListedDepth outer old (Some result) }
{
    ListedRead {
        required: heads.required,
        next: heads.next,
        rest: heads.rest,
        keys: None,
    }
}

/// Parameters with what was read behind `#key`.
#[tactic(auto, using(dy_read_shapes::proofs::ListHeads::all_before, dy_read_shapes::proofs::ListHeads::nothing_before))]
fn with_keys(heads: ListHeads, keys: Option<KeysRead>) -> Option<ListedRead>
    ensures found { option_map read_listed result
        ≡ heads_before heads (option_map listed_keys (option_map read_keys keys)) }
    ensures depth { (outer old new : ℕ)
        → old ≡ max outer (required_depth (read_each_required heads.required.items))
        → KeysDepth old new keys → ListedDepth outer new result }
{
    match keys {
        Some(keys) => Some(ListedRead {
            required: heads.required,
            next: heads.next,
            rest: heads.rest,
            keys: Some(keys),
        }),
        None => None,
    }
}

/// The parameters that fragments stand for.
#[cycle(read)]
pub fn listed_items(
    alloc: Global,
    fragments: &[Fragment],
    depth: &mut usize,
) -> Result<Option<ListedRead>, AllocError>
    ensures found { IfOk result
        (λ found. option_map read_listed found
        ≡ option_map capped_listed
        (signatures.listed_items (items_of (seen_fragments fragments.now)))) }
    ensures depth { IfOk result (λ found. ListedDepth depth.old depth.new found) }
{
    match list_front(alloc, fragments, depth)? {
        Some(front) => match front.keys {
            Some(behind) => Ok(with_keys(front.heads, keys_from(alloc, behind, depth)?)),
            None => Ok(Some(without_keys(front.heads))),
        },
        None => Ok(None),
    }
}

/// Whether no key has a default value.
fn all_without(keys: &[Key]) -> bool
    ensures { result ≡ forms.all_without (read_each_key keys.now) }
{
    for at in 0..keys.len() {
        if keys[at].default.is_some() {
            return false;
        }
    }
    true
}

/// Whether no keyword parameter has a default value.
pub fn no_defaults(listed: &ListedRead) -> bool
    ensures { result ≡ forms.no_defaults (read_listed listed.now).keys }
{
    match &listed.keys {
        Some(read) => all_without(read.keys.as_slice()),
        None => true,
    }
}
