//! Expressions.

ghost use Rattle.std.specs.Prelude.{◌≡◌, ◌++◌, map, OnOk};
ghost use Rattle.dy_tree.specs.Fragments.{seen_fragments};
ghost use Rattle.dy_rules.specs.Trees.{arguments_of};
ghost use Rattle.dy_rules.specs.Writing.{bracketed, plain, written, written_operand};
ghost use Rattle.dy_rules.specs.Writing.{written_argument, written_arguments};
ghost use Rattle.dy_rules.specs.SeenForms.{seen_tree, seen_argument};
ghost use Rattle.dy_writer.specs.Plain.{behind_first};

pub use crate::write::bodies::push_body;
pub use crate::write::parameters::{push_initial, push_signature};
use crate::write::statements::{push_before_body, push_behind_body, push_main_body};
use dy_tree::{Argument, Expression, Fragment};
use dy_write_parts::brackets::{operand_bracketed, splits_tree, unary_bracketed};
use dy_write_parts::breaks::push_between;
use dy_write_parts::leaves::push_leaf;
use dy_write_parts::mark::{push_mark, push_round, push_square_group, push_token};
use dy_write_parts::marks::{push_assigns, push_statement};
use std::alloc::{AllocError, Global};

/// Adds an expression.
#[cycle(write)]
pub fn push_whole(
    alloc: Global,
    form: &Expression,
    out: &mut Vec<Fragment>,
) -> Result<(), AllocError>
    ensures { OnOk result (seen_fragments out.new.items
        ≡ seen_fragments out.old.items ++ written (seen_tree form.now)) }
{
    push_bracketed(alloc, form, splits_tree(form), out)
}

/// Adds an operand.
#[cycle(write)]
fn push_operand(alloc: Global, form: &Expression, out: &mut Vec<Fragment>) -> Result<(), AllocError>
    ensures { OnOk result (seen_fragments out.new.items
        ≡ seen_fragments out.old.items ++ written_operand (seen_tree form.now)) }
{
    push_bracketed(alloc, form, operand_bracketed(form), out)
}

/// Adds an expression, in round brackets if they are wanted. What stands in brackets is written
/// into memory of its own, which becomes the group, so nothing is written or moved twice.
#[cycle(write)]
fn push_bracketed(
    alloc: Global,
    form: &Expression,
    in_brackets: bool,
    out: &mut Vec<Fragment>,
) -> Result<(), AllocError>
    ensures { OnOk result (seen_fragments out.new.items
        ≡ seen_fragments out.old.items ++ bracketed in_brackets (plain (seen_tree form.now))) }
{
    if in_brackets {
        let mut inner = Vec::new(alloc);
        push_plain(alloc, form, &mut inner)?;
        push_round(alloc, out, inner)
    } else {
        push_plain(alloc, form, out)
    }
}

/// Adds an expression without brackets round it.
#[cycle(write)]
#[tactic(auto, using(crate::proofs::Statements::statement_parts))]
fn push_plain(alloc: Global, form: &Expression, out: &mut Vec<Fragment>) -> Result<(), AllocError>
    ensures { OnOk result (seen_fragments out.new.items
        ≡ seen_fragments out.old.items ++ plain (seen_tree form.now)) }
{
    match form {
        Expression::Assign { place: base, .. }
        | Expression::Operation { left: base, .. }
        | Expression::Call { function: base, .. }
        | Expression::Element { object: base, .. }
        | Expression::Member { object: base, .. } => {
            push_operand(alloc, base, out)?;
            push_behind_first(alloc, form, out)
        }
        Expression::Unary { operator, operand } => {
            push_token(out, operator.copy()?)?;
            push_bracketed(alloc, operand, unary_bracketed(operator, operand), out)
        }
        Expression::Literal(_) | Expression::Name(_) => push_leaf(alloc, form, out),
        Expression::List { .. } | Expression::Vector { .. } => push_leaf(alloc, form, out),
        Expression::Statement(statement) => {
            let mut inner = Vec::new(alloc);
            push_before_body(alloc, statement, &mut inner)?;
            push_main_body(alloc, statement, &mut inner)?;
            push_behind_body(alloc, statement, &mut inner)?;
            push_statement(alloc, statement.word(), inner, out)
        }
    }
}

/// Adds what stands behind the first operand.
#[cycle(write)]
fn push_behind_first(
    alloc: Global,
    form: &Expression,
    out: &mut Vec<Fragment>,
) -> Result<(), AllocError>
    ensures { OnOk result (seen_fragments out.new.items
        ≡ seen_fragments out.old.items ++ behind_first (seen_tree form.now)) }
{
    match form {
        Expression::Assign { value, .. } => {
            push_assigns(alloc, out)?;
            push_operand(alloc, value, out)
        }
        Expression::Operation {
            operator,
            right,
            ..
        } => {
            push_token(out, operator.copy()?)?;
            push_operand(alloc, right, out)
        }
        Expression::Call { arguments, .. } => {
            let mut inner = Vec::new(alloc);
            push_arguments(alloc, arguments, &mut inner)?;
            push_round(alloc, out, inner)
        }
        Expression::Element { opener, index, .. } => {
            let mut inner = Vec::new(alloc);
            push_whole(alloc, index, &mut inner)?;
            push_square_group(alloc, out, opener, inner)
        }
        Expression::Member { name, .. } => {
            push_mark(alloc, out, b".")?;
            push_token(out, name.copy()?)
        }
        _ => Ok(()),
    }
}

/// Adds arguments with commas between them.
#[cycle(write)]
fn push_arguments(
    alloc: Global,
    arguments: &Vec<Argument>,
    out: &mut Vec<Fragment>,
) -> Result<(), AllocError>
    ensures { OnOk result (seen_fragments out.new.items
        ≡ seen_fragments out.old.items
        ++ written_arguments (arguments_of (map seen_argument arguments.now.items))) }
{
    let mut first = true;
    for argument in arguments {
        push_between(alloc, out, b",", first)?;
        push_argument(alloc, argument, out)?;
        first = false;
    }
    Ok(())
}

#[cycle(write)]
fn push_argument(
    alloc: Global,
    argument: &Argument,
    out: &mut Vec<Fragment>,
) -> Result<(), AllocError>
    ensures { OnOk result (seen_fragments out.new.items
        ≡ seen_fragments out.old.items ++ written_argument (seen_argument argument.now)) }
{
    match argument {
        Argument::Keyword { keyword, value } => {
            push_token(out, keyword.copy()?)?;
            push_whole(alloc, value, out)
        }
        Argument::Value(value) => push_whole(alloc, value, out),
    }
}
