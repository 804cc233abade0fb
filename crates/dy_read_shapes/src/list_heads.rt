//! The parameters in front of `#key`.

ghost use Rattle.std.specs.Prelude.{◌≡◌, ◌≤◌, ℕ, max, List, Option, IfOk, option_map};
ghost use Rattle.std.specs.Prelude.{option_and_then};
ghost use Rattle.dy_tree.specs.Fragments.{seen_fragments};
ghost use Rattle.dy_rules.specs.Depth.{required_depth};
ghost use Rattle.dy_rules.specs.Fragments.{items_of};
ghost use Rattle.dy_rules.specs.Signatures as signatures;
ghost use Rattle.dy_rules.specs.Signatures.{after_next, after_rest, after_required};
ghost use Rattle.dy_rules.specs.Trees.{Listed};
ghost use Rattle.dy_read_shapes.specs.ListParts.{plain_part, listed_left};
ghost use Rattle.dy_read_shapes.specs.ListHeads.{capped_listed, read_each_required, heads_before};
ghost use Rattle.dy_read_shapes.specs.ListHeads.{heads_read, heads_found, HeadsDepth, FrontDepth};
ghost use Rattle.dy_read_shapes.specs.ListHeads.{IsFrontWithin};
ghost use Rattle.dy_read_parts.specs.Nesting.{nesting};
ghost use Rattle.dy_read_parts.specs.Pieces.{IsWithin};
ghost use Rattle.dy_read_shapes.specs.ReadRequired.{read_required, RequiredDepth};

use crate::list_part::{ListPart, list_part};
use crate::required::required_items;
use dy_read_parts::names::name_in;
use dy_tree::{Fragment, PartWord, Required, Token};
use std::alloc::{AllocError, Global};

/// Parameters that may stand in front of `#key`.
#[derive(Drop)]
pub struct ListHeads {
    pub required: Vec<Required>,
    pub next: Option<Token>,
    pub rest: Option<Token>,
}

/// These, and what stands behind `#key`.
#[derive(Drop)]
pub struct ListFront<'a> {
    pub heads: ListHeads,
    pub keys: Option<&'a [Fragment]>,
}

/// With a name behind `#next`.
#[tactic(auto, using(crate::proofs::ListHeads::next_refused_rest, crate::proofs::ListHeads::next_refused_next))]
fn next_behind(heads: ListHeads, name: Token) -> Option<ListHeads>
    ensures part { (found : Option Listed)
        → heads_read result found ≡ heads_before heads (after_next found name) }
    ensures depth { (outer depth : ℕ)
        → depth ≡ max outer (required_depth (read_each_required heads.required.items))
        → HeadsDepth outer depth result }
{
    match heads.rest {
        Some(_) => None,
        None => match heads.next {
            Some(_) => None,
            None => Some(ListHeads {
                required: heads.required,
                next: Some(name),
                rest: None,
            }),
        },
    }
}

#[tactic(auto, using(crate::proofs::ListHeads::next_changed, crate::proofs::ListHeads::nothing_before))]
fn with_next(heads: ListHeads, name: Option<Token>) -> Option<ListHeads>
    ensures part { (found : Option Listed)
        → heads_read result (option_map capped_listed found)
        ≡ heads_before heads (option_map capped_listed (option_and_then (after_next found) name)) }
    ensures depth { (outer depth : ℕ)
        → depth ≡ max outer (required_depth (read_each_required heads.required.items))
        → HeadsDepth outer depth result }
{
    match name {
        Some(name) => next_behind(heads, name),
        None => None,
    }
}

/// With a name behind `#rest`.
#[tactic(auto, using(crate::proofs::ListHeads::rest_refused))]
fn rest_behind(heads: ListHeads, name: Token) -> Option<ListHeads>
    ensures part { (found : Option Listed)
        → heads_read result found ≡ heads_before heads (after_rest found name) }
    ensures depth { (outer depth : ℕ)
        → depth ≡ max outer (required_depth (read_each_required heads.required.items))
        → HeadsDepth outer depth result }
{
    match heads.rest {
        Some(_) => None,
        None => Some(ListHeads {
            required: heads.required,
            next: heads.next,
            rest: Some(name),
        }),
    }
}

#[tactic(auto, using(crate::proofs::ListHeads::rest_changed, crate::proofs::ListHeads::nothing_before))]
fn with_rest(heads: ListHeads, name: Option<Token>) -> Option<ListHeads>
    ensures part { (found : Option Listed)
        → heads_read result (option_map capped_listed found)
        ≡ heads_before heads (option_map capped_listed (option_and_then (after_rest found) name)) }
    ensures depth { (outer depth : ℕ)
        → depth ≡ max outer (required_depth (read_each_required heads.required.items))
        → HeadsDepth outer depth result }
{
    match name {
        Some(name) => rest_behind(heads, name),
        None => None,
    }
}

/// With a required parameter, which neither `#next` nor `#rest` stands in front of.
#[tactic(auto, using(crate::proofs::ListHeads::required_refused_rest, crate::proofs::ListHeads::required_refused_next, crate::proofs::ListHeads::required_taken, crate::proofs::ListHeads::required_deeper))]
fn required_behind(heads: ListHeads, required: Required) -> Result<Option<ListHeads>, AllocError>
    ensures part { IfOk result
        (λ more. (found : Option Listed)
        → heads_read more found ≡ heads_before heads
        (after_required found (read_required required))) }
    ensures depth { IfOk result
        (λ more. (outer old new : ℕ) → RequiredDepth old new (Some required)
        → old ≡ max outer (required_depth (read_each_required heads.required.items))
        → HeadsDepth outer new more) }
{
    match heads.rest {
        Some(_) => Ok(None),
        None => match heads.next {
            Some(_) => Ok(None),
            None => {
                let mut all = heads.required;
                all.push(required)?;
                Ok(Some(ListHeads {
                    required: all,
                    next: None,
                    rest: None,
                }))
            }
        },
    }
}

#[tactic(auto, using(crate::proofs::ListHeads::nothing_before))]
fn with_required(
    heads: ListHeads,
    required: Option<Required>,
) -> Result<Option<ListHeads>, AllocError>
    ensures part { IfOk result
        (λ more. (found : Option Listed)
        → heads_read more found ≡ heads_before heads
        (option_and_then (after_required found) (option_map read_required required))) }
    ensures depth { IfOk result
        (λ more. (outer old new : ℕ) → RequiredDepth old new required
        → old ≡ max outer (required_depth (read_each_required heads.required.items))
        → HeadsDepth outer new more) }
{
    match required {
        Some(required) => required_behind(heads, required),
        None => Ok(None),
    }
}

/// With one part more.
fn with_part(
    alloc: Global,
    heads: ListHeads,
    word: PartWord,
    piece: &[Fragment],
    depth: &mut usize,
) -> Result<Option<ListHeads>, AllocError>
    ensures part { IfOk result
        (λ more. (found : Option Listed)
        → heads_read more (option_map capped_listed found)
        ≡ heads_before heads (option_map capped_listed
        (plain_part word (items_of (seen_fragments piece.now)) found))) }
    ensures depth { IfOk result
        (λ more. (outer : ℕ) → depth.old
        ≡ max outer (required_depth (read_each_required heads.required.items))
        → HeadsDepth outer depth.new more) }
{
    match word {
        PartWord::Next => Ok(with_next(heads, name_in(piece)?)),
        PartWord::Rest => Ok(with_rest(heads, name_in(piece)?)),
        _ => with_required(heads, required_items(alloc, piece, depth)?),
    }
}

/// The parameters, where there are any.
fn some_parts(fragments: &[Fragment]) -> Option<&[Fragment]>
    ensures parts { signatures.listed_items (items_of (seen_fragments fragments.now))
        ≡ listed_left result }
    ensures nested { IsWithin (nesting (seen_fragments fragments.now)) result }
{
    match fragments.split_first() {
        Some(_) => Some(fragments),
        None => None,
    }
}

/// The parameters in front of `#key`, and what stands behind that.
pub fn list_front<'a>(
    alloc: Global,
    fragments: &'a [Fragment],
    depth: &mut usize,
) -> Result<Option<ListFront<'a>>, AllocError>
    ensures front { IfOk result
        (λ found. option_map capped_listed
        (signatures.listed_items (items_of (seen_fragments fragments.now))) ≡ heads_found found) }
    ensures depth { IfOk result (λ found. FrontDepth depth.old depth.new found) }
    ensures nested { IfOk result
        (λ found. IsFrontWithin (nesting (seen_fragments fragments.now)) found) }
{
    let mut heads = ListHeads {
        required: Vec::new(alloc),
        next: None,
        rest: None,
    };
    let mut behind = some_parts(fragments);
    while let Some(list) = behind {
        match list_part(list) {
            ListPart::One {
                word,
                piece,
                behind: others,
            } => {
                match with_part(alloc, heads, word, piece, depth)? {
                    Some(more) => heads = more,
                    None => return Ok(None),
                }
                behind = others;
            }
            ListPart::Keys(keys) => {
                return Ok(Some(ListFront {
                    heads,
                    keys: Some(keys),
                }));
            }
            ListPart::Nothing => return Ok(None),
        }
    }
    Ok(Some(ListFront { heads, keys: None }))
}
