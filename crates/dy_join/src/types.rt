//! Types, parameter lists and results, where libraries are at their places in the program.

ghost use Rattle.std.specs.Prelude.{◌≡◌, IfOk, map};
ghost use Rattle.std.specs.Option.{option_map};
ghost use Rattle.dy_lowered.specs.Linking.{linked_member, linked_type, linked_params};
ghost use Rattle.dy_lowered.specs.Linking.{linked_results};
ghost use Rattle.dy_join.specs.Numbering.{placed};

use crate::places::Places;
use crate::references::link_class;
use dy_base::Items;
use dy_term::{DyType, Member, Params, Results};
use std::alloc::{AllocError, Global};

fn link_member(places: &Places, member: Member) -> Member
    ensures { result ≡ linked_member (placed places.now) member }
{
    match member {
        Member::Class(class) => Member::Class(link_class(places, class)),
        Member::Single(literal) => Member::Single(literal),
        Member::SingleClass(class) => Member::SingleClass(link_class(places, class)),
        Member::Range(least, greatest) => Member::Range(least, greatest),
    }
}

pub(crate) fn link_type(
    alloc: Global,
    places: &Places,
    declared: DyType,
) -> Result<DyType, AllocError>
    ensures { IfOk result (λ linked. linked ≡ linked_type (placed places.now) declared) }
{
    let mut members = Items::new(alloc);
    for member in declared.members.into_vec() {
        members.push(link_member(places, member))?;
    }
    Ok(DyType { members })
}

pub(crate) fn link_types(
    alloc: Global,
    places: &Places,
    types: Items<DyType>,
) -> Result<Items<DyType>, AllocError>
    ensures { IfOk result (λ linked. linked ≡ map (linked_type (placed places.now)) types) }
{
    let mut linked = Items::new(alloc);
    for declared in types.into_vec() {
        linked.push(link_type(alloc, places, declared)?)?;
    }
    Ok(linked)
}

pub(crate) fn link_params(
    alloc: Global,
    places: &Places,
    params: Params,
) -> Result<Params, AllocError>
    ensures { IfOk result (λ linked. linked ≡ linked_params (placed places.now) params) }
{
    Ok(Params {
        required: link_types(alloc, places, params.required)?,
        rest: params.rest,
        keys: params.keys,
        all_keys: params.all_keys,
    })
}

/// Parameter lists.
pub(crate) fn link_lists(
    alloc: Global,
    places: &Places,
    lists: Items<Params>,
) -> Result<Items<Params>, AllocError>
    ensures { IfOk result (λ linked. linked ≡ map (linked_params (placed places.now)) lists) }
{
    let mut linked = Items::new(alloc);
    for params in lists.into_vec() {
        linked.push(link_params(alloc, places, params)?)?;
    }
    Ok(linked)
}

/// A type, if there is one.
pub(crate) fn link_held_type(
    alloc: Global,
    places: &Places,
    held: Option<DyType>,
) -> Result<Option<DyType>, AllocError>
    ensures { IfOk result (λ linked. linked
        ≡ option_map (linked_type (placed places.now)) held) }
{
    match held {
        None => Ok(None),
        Some(declared) => Ok(Some(link_type(alloc, places, declared)?)),
    }
}

/// The types of the values that are returned.
pub(crate) fn link_values(
    alloc: Global,
    places: &Places,
    results: Results,
) -> Result<Results, AllocError>
    ensures { IfOk result (λ linked. linked ≡ linked_results (placed places.now) results) }
{
    Ok(Results {
        required: link_types(alloc, places, results.required)?,
        rest: link_held_type(alloc, places, results.rest)?,
    })
}

/// Lists of results.
pub(crate) fn link_results(
    alloc: Global,
    places: &Places,
    all: Items<Results>,
) -> Result<Items<Results>, AllocError>
    ensures { IfOk result (λ linked. linked ≡ map (linked_results (placed places.now)) all) }
{
    let mut linked = Items::new(alloc);
    for results in all.into_vec() {
        linked.push(link_values(alloc, places, results)?)?;
    }
    Ok(linked)
}
