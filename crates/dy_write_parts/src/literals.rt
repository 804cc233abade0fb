//! Literals, and what a type holds beside types.

ghost use Rattle.std.specs.Prelude.{◌≡◌, ◌++◌, map, OnOk};
ghost use Rattle.dy_tree.specs.Fragments.{seen_fragments};
ghost use Rattle.dy_rules.specs.Marks.{written_integer, written_literal};
ghost use Rattle.dy_rules.specs.TypeWriting.{written_single, written_bounds};
ghost use Rattle.dy_rules.specs.SeenTypes.{seen_single, seen_bound};
ghost use Rattle.dy_write_parts.specs.Parts.{maybe_one};

use crate::mark::{push_list_group, push_mark, push_token};
use dy_tree::{BoundForm, Fragment, IntegerForm, LiteralForm, SingleForm, Token};
use std::alloc::{AllocError, Global};

/// Adds a token if there is one.
pub fn push_maybe(out: &mut Vec<Fragment>, token: &Option<Token>) -> Result<(), AllocError>
    ensures { OnOk result (seen_fragments out.new.items
        ≡ seen_fragments out.old.items ++ maybe_one token.now) }
{
    match token {
        Some(token) => push_token(out, token.copy()?),
        None => Ok(()),
    }
}

/// Adds an integer.
pub fn push_integer(out: &mut Vec<Fragment>, form: &IntegerForm) -> Result<(), AllocError>
    ensures { OnOk result (seen_fragments out.new.items
        ≡ seen_fragments out.old.items ++ written_integer form.now.minus form.now.digits) }
{
    push_maybe(out, &form.minus)?;
    push_token(out, form.digits.copy()?)
}

/// Adds a literal.
pub fn push_literal(out: &mut Vec<Fragment>, form: &LiteralForm) -> Result<(), AllocError>
    ensures { OnOk result (seen_fragments out.new.items
        ≡ seen_fragments out.old.items ++ written_literal form.now) }
{
    match form {
        LiteralForm::Int(integer) => push_integer(out, integer),
        LiteralForm::Char(token) => push_token(out, token.copy()?),
        LiteralForm::Str(token) => push_token(out, token.copy()?),
        LiteralForm::Bool(token) => push_token(out, token.copy()?),
        LiteralForm::Symbol(token) => push_token(out, token.copy()?),
    }
}

/// Adds the value of a singleton type.
pub fn push_single(
    alloc: Global,
    out: &mut Vec<Fragment>,
    form: &SingleForm,
) -> Result<(), AllocError>
    ensures { OnOk result (seen_fragments out.new.items
        ≡ seen_fragments out.old.items ++ written_single (seen_single form.now)) }
{
    match form {
        SingleForm::Literal(literal) => push_literal(out, literal),
        SingleForm::Empty { opener } => push_list_group(alloc, out, opener, Vec::new(alloc)),
        SingleForm::Name(token) => push_token(out, token.copy()?),
    }
}

/// Adds the bounds of a limited type, each behind a comma.
pub fn push_bounds(
    alloc: Global,
    out: &mut Vec<Fragment>,
    bounds: &Vec<BoundForm>,
) -> Result<(), AllocError>
    ensures { OnOk result (seen_fragments out.new.items
        ≡ seen_fragments out.old.items ++ written_bounds (map seen_bound bounds.now.items)) }
{
    for bound in bounds {
        push_mark(alloc, out, b",")?;
        push_token(out, bound.keyword.copy()?)?;
        push_integer(out, &bound.number)?;
    }
    Ok(())
}
