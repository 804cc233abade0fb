//! Which types, parameters and results are the same.

ghost use Rattle.std.specs.Prelude.{◌≡◌, ◌↔◌, IsTrue, bytes_eq};
ghost use Rattle.dy_values.specs.Identity.{is_same_truth};
ghost use Rattle.dy_lowered.specs.Sameness.{are_same, is_same_option, is_same_type};
ghost use Rattle.dy_lowered.specs.Sameness.{is_same_params, is_same_results};

use crate::literals::is_same;
use dy_base::{Items, Name};
use dy_term::{DyType, Member, Params, Results};

fn is_same_member(member: &Member, other: &Member) -> bool
    ensures { IsTrue result ↔ (member.now ≡ other.now) }
{
    match member {
        Member::Class(class) => matches!(other, Member::Class(same) if same == class),
        Member::Single(literal) => match other {
            Member::Single(same) => is_same(literal, same),
            _ => false,
        },
        Member::SingleClass(class) => matches!(other, Member::SingleClass(same) if same == class),
        Member::Range(least, greatest) => match other {
            Member::Range(low, high) => *low == *least && *high == *greatest,
            _ => false,
        },
    }
}

fn are_same_members(members: &Items<Member>, others: &Items<Member>) -> bool
    ensures { IsTrue result ↔ (members.now ≡ others.now) }
{
    if members.len() != others.len() {
        return false;
    }
    for (member, other) in members.as_slice().iter().zip(others.as_slice()) {
        if !is_same_member(member, other) {
            return false;
        }
    }
    true
}

fn is_same_type(declared: &DyType, other: &DyType) -> bool
    ensures { IsTrue result ↔ (declared.now ≡ other.now) }
{
    are_same_members(&declared.members, &other.members)
}

fn are_same_types(types: &Items<DyType>, others: &Items<DyType>) -> bool
    ensures { IsTrue result ↔ (types.now ≡ others.now) }
{
    if types.len() != others.len() {
        return false;
    }
    for (declared, other) in types.as_slice().iter().zip(others.as_slice()) {
        if !is_same_type(declared, other) {
            return false;
        }
    }
    true
}

fn is_same_name(name: &Name, other: &Name) -> bool
    ensures { IsTrue result ↔ (name.now ≡ other.now) }
{
    name.bytes() == other.bytes()
}

fn are_same_names(names: &Items<Name>, others: &Items<Name>) -> bool
    ensures { IsTrue result ↔ (names.now ≡ others.now) }
{
    if names.len() != others.len() {
        return false;
    }
    for (name, other) in names.as_slice().iter().zip(others.as_slice()) {
        if !is_same_name(name, other) {
            return false;
        }
    }
    true
}

fn are_same_keys(keys: &Option<Items<Name>>, others: &Option<Items<Name>>) -> bool
    ensures { IsTrue result ↔ (keys.now ≡ others.now) }
{
    match keys {
        None => others.is_none(),
        Some(names) => match others {
            None => false,
            Some(same) => are_same_names(names, same),
        },
    }
}

fn is_same_rest(rest: &Option<DyType>, other: &Option<DyType>) -> bool
    ensures { IsTrue result ↔ (rest.now ≡ other.now) }
{
    match rest {
        None => other.is_none(),
        Some(declared) => match other {
            None => false,
            Some(same) => is_same_type(declared, same),
        },
    }
}

/// Whether two types are the same.
pub(crate) fn type_same(declared: &DyType, other: &DyType) -> bool
    ensures { result ≡ is_same_type declared.now other.now }
{
    is_same_type(declared, other)
}

fn types_same(types: &Items<DyType>, others: &Items<DyType>) -> bool
    ensures { result ≡ are_same is_same_type types.now others.now }
{
    are_same_types(types, others)
}

fn keys_same(keys: &Option<Items<Name>>, others: &Option<Items<Name>>) -> bool
    ensures { result ≡ is_same_option (are_same bytes_eq) keys.now others.now }
{
    are_same_keys(keys, others)
}

fn rest_same(rest: &Option<DyType>, other: &Option<DyType>) -> bool
    ensures { result ≡ is_same_option is_same_type rest.now other.now }
{
    is_same_rest(rest, other)
}

fn truth_same(value: bool, other: bool) -> bool
    ensures { result ≡ is_same_truth value other }
{
    if value { other } else { !other }
}

/// Whether two parameter lists are the same.
pub(crate) fn are_same_params(params: &Params, other: &Params) -> bool
    ensures { result ≡ is_same_params params.now other.now }
{
    types_same(&params.required, &other.required)
        && (truth_same(params.rest, other.rest)
            && (keys_same(&params.keys, &other.keys)
                && truth_same(params.all_keys, other.all_keys)))
}

/// Whether two lists of results are the same.
pub(crate) fn are_same_results(results: &Results, other: &Results) -> bool
    ensures { result ≡ is_same_results results.now other.now }
{
    types_same(&results.required, &other.required) && rest_same(&results.rest, &other.rest)
}
