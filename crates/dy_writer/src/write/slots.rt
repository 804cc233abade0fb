//! The slots of a class.

ghost use Rattle.std.specs.Prelude.{◌≡◌, ◌++◌, [], ◌∷◌, map, OnOk};
ghost use Rattle.dy_tree.specs.Fragments.{one, seen_fragments};
ghost use Rattle.dy_rules.specs.Writing.{written};
ghost use Rattle.dy_rules.specs.FormWriting.{key_mark_of, written_option, written_options};
ghost use Rattle.dy_rules.specs.FormWriting.{written_slot, written_slots};
ghost use Rattle.dy_rules.specs.SeenForms.{seen_tree, seen_option, seen_slot};

use crate::write::expressions::push_whole;
use crate::write::parameters::push_initial;
use dy_tree::{Expression, Fragment, Slot, SlotOption, Token};
use dy_write_parts::mark::{push_mark, push_symbol, push_token, push_word};
use dy_write_parts::names::push_adjectives;
use dy_write_parts::types::push_declared;
use std::alloc::{AllocError, Global};

/// Adds an option that holds a token.
fn push_token_option(
    alloc: Global,
    word: &[u8],
    token: &Token,
    out: &mut Vec<Fragment>,
) -> Result<(), AllocError>
    ensures { OnOk result (seen_fragments out.new.items
        ≡ seen_fragments out.old.items ++ key_mark_of word.now ∷ one token.now ∷ []) }
{
    push_symbol(alloc, out, word)?;
    push_token(out, token.copy()?)
}

/// Adds an option that holds an expression.
fn push_value_option(
    alloc: Global,
    word: &[u8],
    value: &Expression,
    out: &mut Vec<Fragment>,
) -> Result<(), AllocError>
    ensures { OnOk result (seen_fragments out.new.items
        ≡ seen_fragments out.old.items ++ key_mark_of word.now ∷ written (seen_tree value.now)) }
{
    push_symbol(alloc, out, word)?;
    push_whole(alloc, value, out)
}

/// Adds an option of a slot.
fn push_option(
    alloc: Global,
    option: &SlotOption,
    out: &mut Vec<Fragment>,
) -> Result<(), AllocError>
    ensures { OnOk result (seen_fragments out.new.items
        ≡ seen_fragments out.old.items ++ written_option (seen_option option.now)) }
{
    match option {
        SlotOption::InitKeyword(token) => push_token_option(alloc, b"init-keyword", token, out),
        SlotOption::RequiredInitKeyword(token) => {
            push_token_option(alloc, b"required-init-keyword", token, out)
        }
        SlotOption::InitValue(value) => push_value_option(alloc, b"init-value", value, out),
        SlotOption::InitFunction(value) => push_value_option(alloc, b"init-function", value, out),
        SlotOption::Setter(token) => push_token_option(alloc, b"setter", token, out),
    }
}

/// Adds options, each behind a comma.
fn push_options(
    alloc: Global,
    options: &Vec<SlotOption>,
    out: &mut Vec<Fragment>,
) -> Result<(), AllocError>
    ensures { OnOk result (seen_fragments out.new.items
        ≡ seen_fragments out.old.items ++ written_options (map seen_option options.now.items)) }
{
    for option in options {
        push_mark(alloc, out, b",")?;
        push_option(alloc, option, out)?;
    }
    Ok(())
}

/// Adds a slot.
fn push_slot(alloc: Global, slot: &Slot, out: &mut Vec<Fragment>) -> Result<(), AllocError>
    ensures { OnOk result (seen_fragments out.new.items
        ≡ seen_fragments out.old.items ++ written_slot (seen_slot slot.now)) }
{
    push_adjectives(&slot.adjectives, out)?;
    push_word(alloc, out, b"slot")?;
    push_token(out, slot.name.copy()?)?;
    push_declared(alloc, &slot.declared, out)?;
    push_initial(alloc, &slot.value, out)?;
    push_options(alloc, &slot.options, out)
}

/// Adds slots, each with a semicolon behind it.
pub fn push_slots(
    alloc: Global,
    slots: &Vec<Slot>,
    out: &mut Vec<Fragment>,
) -> Result<(), AllocError>
    ensures { OnOk result (seen_fragments out.new.items
        ≡ seen_fragments out.old.items ++ written_slots (map seen_slot slots.now.items)) }
{
    for slot in slots {
        push_slot(alloc, slot, out)?;
        push_mark(alloc, out, b";")?;
    }
    Ok(())
}
