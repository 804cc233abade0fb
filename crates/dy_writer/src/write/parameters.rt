//! Parameters with their results.

ghost use Rattle.std.specs.Prelude.{◌≡◌, ◌++◌, ◌∷◌, [], map, OnOk};
ghost use Rattle.dy_tree.specs.Fragments.{seen_fragments};
ghost use Rattle.dy_rules.specs.Marks.{key_mark};
ghost use Rattle.dy_rules.specs.Trees.{keys_of};
ghost use Rattle.dy_rules.specs.Writing.{first_keys, written_all, written_initial, written_key};
ghost use Rattle.dy_rules.specs.Writing.{written_keys, written_signature};
ghost use Rattle.dy_rules.specs.SeenForms.{seen_initial, seen_parameters};
ghost use Rattle.dy_rules.specs.Held.{held_key, held_keys};

use crate::write::expressions::push_whole;
use dy_tree::{Expression, Fragment, Key, Keys, Parameters, TokenKind};
use dy_write_parts::breaks::push_between;
use dy_write_parts::literals::push_maybe;
use dy_write_parts::mark::{made, push_mark, push_token};
use dy_write_parts::marks::push_equals;
use dy_write_parts::parameter_list::push_listed;
use dy_write_parts::targets::push_results;
use dy_write_parts::types::push_variable;
use std::alloc::{AllocError, Global};

/// Adds parameters with their results.
#[cycle(write)]
pub fn push_signature(
    alloc: Global,
    parameters: &Parameters,
    out: &mut Vec<Fragment>,
) -> Result<(), AllocError>
    ensures { OnOk result (seen_fragments out.new.items
        ≡ seen_fragments out.old.items ++ written_signature (seen_parameters parameters.now)) }
{
    let mut keys = Vec::new(alloc);
    push_keys(alloc, &parameters.keys, &mut keys)?;
    push_listed(
        alloc,
        &parameters.required,
        &parameters.next,
        &parameters.rest,
        keys,
        out,
    )?;
    push_results(alloc, &parameters.results, out)
}

#[cycle(write)]
fn push_keys(alloc: Global, keys: &Option<Keys>, out: &mut Vec<Fragment>) -> Result<(), AllocError>
    ensures { OnOk result (seen_fragments out.new.items
        ≡ seen_fragments out.old.items ++ written_keys (held_keys keys.now)) }
{
    match keys {
        Some(keys) => {
            push_key_mark(alloc, out)?;
            push_key_list(alloc, &keys.keys, out)?;
            push_all_keys(alloc, keys.takes_all, out)
        }
        None => Ok(()),
    }
}

/// Adds `#key`.
fn push_key_mark(alloc: Global, out: &mut Vec<Fragment>) -> Result<(), AllocError>
    ensures { OnOk result (seen_fragments out.new.items
        ≡ seen_fragments out.old.items ++ key_mark ∷ []) }
{
    let token = made(alloc, TokenKind::Mark, b"#key")?;
    push_token(out, token)
}

/// Adds `#all-keys` behind a comma, if all keys are taken.
fn push_all_keys(alloc: Global, takes_all: bool, out: &mut Vec<Fragment>) -> Result<(), AllocError>
    ensures { OnOk result (seen_fragments out.new.items
        ≡ seen_fragments out.old.items ++ written_all takes_all) }
{
    if !takes_all {
        return Ok(());
    }
    push_mark(alloc, out, b",")?;
    let token = made(alloc, TokenKind::Mark, b"#all-keys")?;
    push_token(out, token)
}

/// Adds keys with commas between them.
#[cycle(write)]
fn push_key_list(alloc: Global, keys: &Vec<Key>, out: &mut Vec<Fragment>) -> Result<(), AllocError>
    ensures { OnOk result (seen_fragments out.new.items
        ≡ seen_fragments out.old.items ++ first_keys (keys_of (map held_key keys.now.items))) }
{
    let mut first = true;
    for key in keys {
        push_between(alloc, out, b",", first)?;
        push_key(alloc, key, out)?;
        first = false;
    }
    Ok(())
}

#[cycle(write)]
fn push_key(alloc: Global, key: &Key, out: &mut Vec<Fragment>) -> Result<(), AllocError>
    ensures { OnOk result (seen_fragments out.new.items
        ≡ seen_fragments out.old.items ++ written_key (held_key key.now)) }
{
    push_maybe(out, &key.keyword)?;
    push_variable(alloc, &key.variable, out)?;
    push_initial(alloc, &key.default, out)
}

/// Adds an initial value behind its equals sign, if there is one.
#[cycle(write)]
pub fn push_initial(
    alloc: Global,
    value: &Option<Expression>,
    out: &mut Vec<Fragment>,
) -> Result<(), AllocError>
    ensures { OnOk result (seen_fragments out.new.items
        ≡ seen_fragments out.old.items ++ written_initial (seen_initial value.now)) }
{
    match value {
        Some(value) => {
            push_equals(alloc, out)?;
            push_whole(alloc, value, out)
        }
        None => Ok(()),
    }
}
