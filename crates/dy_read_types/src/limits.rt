//! The class and the bounds of a limited type.

ghost use Rattle.std.specs.Prelude.{◌≡◌, IfOk, option_map};
ghost use Rattle.dy_tree.specs.Fragments.{seen_fragments};
ghost use Rattle.dy_rules.specs.Arguments.{is_comma_fragment};
ghost use Rattle.dy_rules.specs.Cutting.{each_other};
ghost use Rattle.dy_rules.specs.Fragments.{items_of};
ghost use Rattle.dy_rules.specs.Roles as rules;
ghost use Rattle.dy_rules.specs.TypeReading as spec;
ghost use Rattle.dy_read_types.specs.Limits.{class_in, seen_bounds, seen_limits};
ghost use Rattle.dy_read_parts.specs.Pieces.{others_in};

use crate::single::bound_in;
use dy_read_parts::cutting::split_piece;
use dy_read_parts::separator::Separator;
use dy_read_words::alone::token_alone;
use dy_read_words::bounds::stand_once;
use dy_read_words::role::role_of;
use dy_tree::{BoundForm, Fragment, Role, Token};
use std::alloc::{AllocError, Global};

/// The class and the bounds of a limited type.
#[derive(Debug, Drop)]
pub struct Limits {
    pub class: Token,
    pub bounds: Vec<BoundForm>,
}

/// The bounds of a limited type, each behind a comma.
fn bounds_behind(
    alloc: Global,
    fragments: &[Fragment],
) -> Result<Option<Vec<BoundForm>>, AllocError>
    ensures { IfOk result (λ found. option_map seen_bounds found
        ≡ each_other spec.bound_items
        (others_in is_comma_fragment (seen_fragments fragments.now))) }
{
    let mut bounds = Vec::new(alloc);
    let mut rest = fragments;
    while let Some((_, behind)) = rest.split_first() {
        let (piece, others) = split_piece(Separator::Comma, false, behind);
        match bound_in(piece)? {
            Some(bound) => bounds.push(bound)?,
            None => return Ok(None),
        }
        rest = others;
    }
    Ok(Some(bounds))
}

/// The bounds of a limited type, where each stands once at most.
fn bounds_in(alloc: Global, fragments: &[Fragment]) -> Result<Option<Vec<BoundForm>>, AllocError>
    ensures { IfOk result (λ found. option_map seen_bounds found
        ≡ spec.bounds_in (others_in is_comma_fragment (seen_fragments fragments.now))) }
{
    match bounds_behind(alloc, fragments)? {
        Some(bounds) => {
            if stand_once(&bounds) {
                Ok(Some(bounds))
            } else {
                Ok(None)
            }
        }
        None => Ok(None),
    }
}

/// Whether a token is the one class that has limits, `<integer>`.
fn is_integer_class(token: &Token) -> bool
    ensures { result ≡ spec.is_integer_class (rules.role_of token.now) token.now }
{
    matches!(role_of(token), Role::Named) && token.is_spelled(b"<integer>")
}

/// The class of a limited type.
fn class_in(fragments: &[Fragment]) -> Result<Option<Token>, AllocError>
    ensures { IfOk result (λ found. found ≡ class_in (seen_fragments fragments.now)) }
{
    match token_alone(fragments) {
        Some(class) if is_integer_class(class) => Ok(Some(class.copy()?)),
        _ => Ok(None),
    }
}

/// What stands between the brackets of a limited type.
#[tactic(auto, using(crate::proofs::LimitParts::limits_cut))]
pub fn limits_in(alloc: Global, fragments: &[Fragment]) -> Result<Option<Limits>, AllocError>
    ensures { IfOk result (λ found. option_map seen_limits found
        ≡ spec.limits_items (items_of (seen_fragments fragments.now))) }
{
    let (piece, others) = split_piece(Separator::Comma, false, fragments);
    match class_in(piece)? {
        Some(class) => match bounds_in(alloc, others)? {
            Some(bounds) => Ok(Some(Limits { class, bounds })),
            None => Ok(None),
        },
        None => Ok(None),
    }
}
