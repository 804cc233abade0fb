//! What of an item is hashed.

ghost use Rattle.std.specs.Prelude.{◌≡◌, ◌++◌, fold};
ghost use Rattle.std.specs.Hash as hash;
ghost use Rattle.dy_keys.specs.Fed as fed;

use dy_base::{BindingId, Boxed, Items};
use dy_term::{DyType, Literal, Member, Params, Results};
use std::hash::{Hash, Hasher};

/// Feeds a literal to a hasher.
#[cycle(fed)]
pub(crate) fn feed<H: Hasher>(literal: &Literal, state: &mut H)
    ensures { state.new ≡ fold H.write state.old (fed.literal literal.now) }
{
    match literal {
        Literal::Int(value) => feed_number(*value, state),
        Literal::Char(value) => {
            state.write_u8(1);
            state.write_u8(*value);
        }
        Literal::Bool(value) => feed_truth(*value, state),
        Literal::Symbol(name) => {
            state.write_u8(3);
            state.write(name.bytes());
        }
        Literal::Nil => state.write_u8(4),
        Literal::Str(text) => {
            state.write_u8(5);
            state.write(text.bytes());
        }
        Literal::List(items, last) => {
            state.write_u8(6);
            feed_all(items, state);
            feed_end(last, state);
        }
        Literal::Vector(items) => {
            state.write_u8(7);
            feed_all(items, state);
        }
    }
}

/// Feeds a number to a hasher.
pub(crate) fn feed_number<H: Hasher>(value: i64, state: &mut H)
    ensures { state.new ≡ fold H.write state.old (fed.number value) }
{
    state.write_u8(0);
    state.write_i64(value);
}

/// Feeds a truth value to a hasher.
pub(crate) fn feed_truth<H: Hasher>(value: bool, state: &mut H)
    ensures { state.new ≡ fold H.write state.old (fed.truth value) }
{
    state.write_u8(2);
    value.hash(state);
}

#[cycle(fed)]
fn feed_all<H: Hasher>(items: &Items<Literal>, state: &mut H)
    ensures { state.new ≡ fold H.write state.old (fed.literals items.now) }
{
    for item in items.as_slice() {
        feed(item, state);
    }
}

#[cycle(fed)]
fn feed_end<H: Hasher>(last: &Option<Boxed<Literal>>, state: &mut H)
    ensures { state.new ≡ fold H.write state.old (fed.end last.now) }
{
    match last {
        None => {}
        Some(literal) => feed(literal, state),
    }
}

/// Feeds a name to a hasher. Those of rows at the same place among their kinds are fed alike.
pub(crate) fn feed_name<H: Hasher>(name: BindingId, state: &mut H)
    ensures { state.new ≡ fold H.write state.old (fed.name name) }
{
    state.write_u32(name.at.library);
    state.write_u32(name.at.row);
}

fn feed_member<H: Hasher>(member: &Member, state: &mut H)
    ensures { state.new ≡ fold H.write state.old (fed.member member.now) }
{
    match member {
        Member::Class(class) => state.write_u32(class.0.row),
        Member::Single(literal) => feed(literal, state),
        Member::SingleClass(class) => state.write_u32(class.0.row),
        Member::Range(least, greatest) => {
            state.write_i64(*least);
            state.write_i64(*greatest);
        }
    }
}

/// Feeds a type to a hasher.
pub(crate) fn feed_type<H: Hasher>(declared: &DyType, state: &mut H)
    ensures { state.new ≡ fold H.write state.old (fed.declared_type declared.now) }
{
    for member in declared.members.as_slice() {
        feed_member(member, state);
    }
}

fn feed_types<H: Hasher>(types: &Items<DyType>, state: &mut H)
    ensures { state.new ≡ fold H.write state.old (fed.types types.now) }
{
    for declared in types.as_slice() {
        feed_type(declared, state);
    }
}

/// Feeds a parameter list to a hasher. Lists that differ in keywords alone are fed alike.
pub(crate) fn feed_params<H: Hasher>(params: &Params, state: &mut H)
    ensures { state.new ≡ fold H.write state.old (fed.params params.now) }
{
    params.rest.hash(state);
    feed_types(&params.required, state);
}

/// Feeds a list of results to a hasher. Lists that differ in the type of further values alone are
/// fed alike.
pub(crate) fn feed_results<H: Hasher>(results: &Results, state: &mut H)
    ensures { state.new ≡ fold H.write state.old (fed.results results.now) }
{
    feed_types(&results.required, state);
}
