//! How a constant begins.

ghost use Rattle.std.specs.Prelude.{◌≡◌, IfOk, length, suc};
ghost use Rattle.dy_read_parts.specs.Nesting.{nesting};
ghost use Rattle.dy_tree.specs.Fragments.{seen_fragments};
ghost use Rattle.dy_rules.specs.Roles as rules;
ghost use Rattle.dy_rules.specs.Constants as constants;
ghost use Rattle.dy_read_constants.specs.ConstantShapes as spec;

use dy_read_parts::literal::{negative, token_literal};
use dy_read_parts::part::{Part, part_of};
use dy_read_words::role::role_of;
use dy_tree::{Bracket, Fragment, LiteralForm, Role, Token};
use std::alloc::AllocError;

/// How a constant begins, and what stands behind it.
#[derive(Debug, Drop)]
pub enum ConstantShape<'a> {
    /// No constant begins here.
    Nothing,
    Literal {
        form: LiteralForm,
        rest: &'a [Fragment],
    },
    /// What may be a list or a vector.
    Group {
        bracket: Bracket,
        opener: &'a Token,
        inner: &'a [Fragment],
        rest: &'a [Fragment],
    },
}

/// A number behind a minus.
fn shape_behind_sign<'a>(
    sign: &Token,
    rest: &'a [Fragment],
) -> Result<ConstantShape<'a>, AllocError>
    ensures shape { IfOk result
        (λ shape. spec.seen_shape shape
        ≡ spec.shape_behind_sign sign.now (seen_fragments rest.now)) }
    ensures present { IfOk result (λ shape. spec.IsPresent shape) }
    ensures shallower { IfOk result
        (λ shape. spec.IsShallower (nesting (seen_fragments rest.now)) shape) }
    ensures shorter { IfOk result (λ shape. spec.IsShorter (length rest.now) shape) }
{
    match rest.split_first() {
        None => Ok(ConstantShape::Nothing),
        Some((second, others)) => match part_of(second) {
            Part::Group { .. } => Ok(ConstantShape::Nothing),
            Part::One(digits) => match role_of(digits) {
                Role::Integer => Ok(ConstantShape::Literal {
                    form: negative(sign, digits)?,
                    rest: others,
                }),
                _ => Ok(ConstantShape::Nothing),
            },
        },
    }
}

/// A literal of one token.
#[tactic(auto, using(crate::proofs::ConstantShapes::literal_present))]
fn shape_of_literal<'a>(
    token: &Token,
    rest: &'a [Fragment],
) -> Result<ConstantShape<'a>, AllocError>
    ensures shape { IfOk result
        (λ shape. spec.seen_shape shape
        ≡ spec.literal_or_none (constants.token_literal (rules.role_of token.now) token.now)
        (seen_fragments rest.now)) }
    ensures present { IfOk result (λ shape. spec.IsPresent shape) }
    ensures shallower { IfOk result
        (λ shape. spec.IsShallower (nesting (seen_fragments rest.now)) shape) }
    ensures shorter { IfOk result (λ shape. spec.IsShorter (suc (length rest.now)) shape) }
{
    match token_literal(token)? {
        Some(form) => Ok(ConstantShape::Literal { form, rest }),
        None => Ok(ConstantShape::Nothing),
    }
}

fn shape_of_token<'a>(token: &Token, rest: &'a [Fragment]) -> Result<ConstantShape<'a>, AllocError>
    ensures shape { IfOk result
        (λ shape. spec.seen_shape shape
        ≡ spec.shape_of_token (rules.role_of token.now) token.now (seen_fragments rest.now)) }
    ensures present { IfOk result (λ shape. spec.IsPresent shape) }
    ensures shallower { IfOk result
        (λ shape. spec.IsShallower (nesting (seen_fragments rest.now)) shape) }
    ensures shorter { IfOk result (λ shape. spec.IsShorter (suc (length rest.now)) shape) }
{
    match role_of(token) {
        Role::Minus => shape_behind_sign(token, rest),
        _ => shape_of_literal(token, rest),
    }
}

/// How the constant at the front of fragments begins.
pub fn constant_shape<'a>(fragments: &'a [Fragment]) -> Result<ConstantShape<'a>, AllocError>
    ensures shape { IfOk result
        (λ shape. spec.seen_shape shape ≡ spec.shape_of (seen_fragments fragments.now)) }
    ensures present { IfOk result (λ shape. spec.IsPresent shape) }
    ensures shallower { IfOk result
        (λ shape. spec.IsShallower (nesting (seen_fragments fragments.now)) shape) }
    ensures shorter { IfOk result (λ shape. spec.IsShorter (length fragments.now) shape) }
{
    match fragments.split_first() {
        None => Ok(ConstantShape::Nothing),
        Some((first, rest)) => match part_of(first) {
            Part::Group {
                bracket,
                opener,
                inner,
            } => Ok(ConstantShape::Group {
                bracket,
                opener,
                inner,
                rest,
            }),
            Part::One(token) => shape_of_token(token, rest),
        },
    }
}
