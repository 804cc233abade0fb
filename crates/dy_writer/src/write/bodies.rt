//! Bodies and their items.

ghost use Rattle.std.specs.Prelude.{◌≡◌, ◌++◌, ◌∷◌, [], map, OnOk};
ghost use Rattle.dy_tree.specs.Fragments.{seen_fragments};
ghost use Rattle.dy_rules.specs.Trees.{body_of, methods_of};
ghost use Rattle.dy_rules.specs.Writing.{written_body, written_item, written_method};
ghost use Rattle.dy_rules.specs.Writing.{written_methods};
ghost use Rattle.dy_rules.specs.SeenForms.{seen_item, seen_method};

use crate::write::expressions::push_whole;
use crate::write::parameters::push_signature;
use dy_tree::{Fragment, Item, LocalMethod};
use dy_write_parts::breaks::push_between;
use dy_write_parts::mark::{push_mark, push_token, push_word};
use dy_write_parts::marks::{push_equals, push_statement};
use dy_write_parts::targets::push_target;
use dy_write_parts::types::push_type;
use std::alloc::{AllocError, Global};

/// Adds the items of a body with semicolons between them.
#[cycle(write)]
pub fn push_body(
    alloc: Global,
    items: &Vec<Item>,
    out: &mut Vec<Fragment>,
) -> Result<(), AllocError>
    ensures { OnOk result (seen_fragments out.new.items
        ≡ seen_fragments out.old.items ++ written_body (body_of (map seen_item items.now.items))) }
{
    let mut first = true;
    for item in items {
        push_between(alloc, out, b";", first)?;
        push_item(alloc, item, out)?;
        first = false;
    }
    Ok(())
}

#[cycle(write)]
fn push_item(alloc: Global, item: &Item, out: &mut Vec<Fragment>) -> Result<(), AllocError>
    ensures { OnOk result (seen_fragments out.new.items
        ≡ seen_fragments out.old.items ++ written_item (seen_item item.now)) }
{
    match item {
        Item::Let {
            word,
            target,
            value,
        } => {
            push_token(out, word.copy()?)?;
            push_target(alloc, target, out)?;
            push_equals(alloc, out)?;
            push_whole(alloc, value, out)
        }
        Item::Handler {
            word,
            condition,
            handler,
        } => {
            push_token(out, word.copy()?)?;
            push_word(alloc, out, b"handler")?;
            push_type(alloc, condition, out)?;
            push_equals(alloc, out)?;
            push_whole(alloc, handler, out)
        }
        Item::Local { word, methods } => {
            push_token(out, word.copy()?)?;
            push_methods(alloc, methods, out)
        }
        Item::Expression(value) => push_whole(alloc, value, out),
    }
}

#[cycle(write)]
fn push_methods(
    alloc: Global,
    methods: &Vec<LocalMethod>,
    out: &mut Vec<Fragment>,
) -> Result<(), AllocError>
    ensures { OnOk result (seen_fragments out.new.items
        ≡ seen_fragments out.old.items
        ++ written_methods (methods_of (map seen_method methods.now.items))) }
{
    let mut first = true;
    for method in methods {
        push_between(alloc, out, b",", first)?;
        push_method(alloc, method, out)?;
        first = false;
    }
    Ok(())
}

#[cycle(write)]
fn push_method(
    alloc: Global,
    method: &LocalMethod,
    out: &mut Vec<Fragment>,
) -> Result<(), AllocError>
    ensures { OnOk result (seen_fragments out.new.items
        ≡ seen_fragments out.old.items ++ written_method (seen_method method.now) ∷ []) }
{
    let mut inner = Vec::new(alloc);
    push_token(&mut inner, method.name.copy()?)?;
    push_signature(alloc, &method.parameters, &mut inner)?;
    push_mark(alloc, &mut inner, b";")?;
    push_body(alloc, &method.body, &mut inner)?;
    push_statement(alloc, &method.word, inner, out)
}
