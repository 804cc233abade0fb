//! Types, and variables with their types.

ghost use Rattle.std.specs.Prelude.{◌≡◌, ◌++◌, map, option_map, OnOk};
ghost use Rattle.dy_tree.specs.Fragments.{seen_fragments};
ghost use Rattle.dy_rules.specs.Types.{types_of};
ghost use Rattle.dy_rules.specs.TypeWriting.{written_type, written_types, written_declared};
ghost use Rattle.dy_rules.specs.TypeWriting.{written_variable};
ghost use Rattle.dy_rules.specs.SeenTypes.{seen_type, seen_variable};
ghost use Rattle.dy_write_parts.specs.Parts.{comma_unless};

use crate::literals::{push_bounds, push_single};
use crate::mark::{push_mark, push_round, push_token};
use dy_tree::{Fragment, TypeForm, Variable};
use std::alloc::{AllocError, Global};

/// Adds a comma, unless what comes is the first part.
pub fn push_comma(alloc: Global, out: &mut Vec<Fragment>, first: bool) -> Result<(), AllocError>
    ensures { OnOk result (seen_fragments out.new.items
        ≡ seen_fragments out.old.items ++ comma_unless first) }
{
    if first {
        Ok(())
    } else {
        push_mark(alloc, out, b",")
    }
}

/// Adds a type.
#[cycle(types)]
pub fn push_type(alloc: Global, form: &TypeForm, out: &mut Vec<Fragment>) -> Result<(), AllocError>
    ensures { OnOk result (seen_fragments out.new.items
        ≡ seen_fragments out.old.items ++ written_type (seen_type form.now)) }
{
    match form {
        TypeForm::Name(token) => push_token(out, token.copy()?),
        TypeForm::Singleton { word, single } => {
            push_token(out, word.copy()?)?;
            let mut inner = Vec::new(alloc);
            push_single(alloc, &mut inner, single)?;
            push_round(alloc, out, inner)
        }
        TypeForm::Union { word, types } => {
            push_token(out, word.copy()?)?;
            let mut inner = Vec::new(alloc);
            push_types(alloc, types, &mut inner)?;
            push_round(alloc, out, inner)
        }
        TypeForm::Limited {
            word,
            class,
            bounds,
        } => {
            push_token(out, word.copy()?)?;
            let mut inner = Vec::new(alloc);
            push_token(&mut inner, class.copy()?)?;
            push_bounds(alloc, &mut inner, bounds)?;
            push_round(alloc, out, inner)
        }
    }
}

/// Adds types with commas between them.
#[cycle(types)]
pub fn push_types(
    alloc: Global,
    forms: &Vec<TypeForm>,
    out: &mut Vec<Fragment>,
) -> Result<(), AllocError>
    ensures { OnOk result (seen_fragments out.new.items
        ≡ seen_fragments out.old.items
        ++ written_types (types_of (map seen_type forms.now.items))) }
{
    let mut first = true;
    for form in forms {
        push_comma(alloc, out, first)?;
        push_type(alloc, form, out)?;
        first = false;
    }
    Ok(())
}

/// Adds the type of a variable behind its colons, if there is one.
pub fn push_declared(
    alloc: Global,
    declared: &Option<TypeForm>,
    out: &mut Vec<Fragment>,
) -> Result<(), AllocError>
    ensures { OnOk result (seen_fragments out.new.items
        ≡ seen_fragments out.old.items ++ written_declared (option_map seen_type declared.now)) }
{
    match declared {
        Some(form) => {
            push_mark(alloc, out, b"::")?;
            push_type(alloc, form, out)
        }
        None => Ok(()),
    }
}

/// Adds a variable and its type.
pub fn push_variable(
    alloc: Global,
    form: &Variable,
    out: &mut Vec<Fragment>,
) -> Result<(), AllocError>
    ensures { OnOk result (seen_fragments out.new.items
        ≡ seen_fragments out.old.items ++ written_variable (seen_variable form.now)) }
{
    push_token(out, form.name.copy()?)?;
    push_declared(alloc, &form.declared, out)
}
