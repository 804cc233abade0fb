//! What a type holds beside types: the value of a singleton type, and the bounds of a limited one.

ghost use Rattle.std.specs.Prelude.{◌≡◌, [], ◌∷◌, IfOk, option_map};
ghost use Rattle.dy_tree.specs.Fragments.{pack, seen_fragment, seen_fragments};
ghost use Rattle.dy_rules.specs.Roles as rules;
ghost use Rattle.dy_rules.specs.TypeReading as spec;
ghost use Rattle.dy_rules.specs.SeenTypes.{seen_bound, seen_single};
ghost use Rattle.dy_read_types.specs.Tests.{is_negative};

use dy_read_parts::literal::{negative, token_literal};
use dy_read_words::bracket::bracket_of;
use dy_read_words::role::role_of;
use dy_read_words::sign::is_bound;
use dy_tree::{BoundForm, Bracket, Fragment, IntegerForm, Role, SingleForm, Token};
use std::alloc::AllocError;

fn single_token(token: &Token) -> Result<Option<SingleForm>, AllocError>
    ensures { IfOk result (λ found. option_map seen_single found
        ≡ spec.single_token (rules.role_of token.now) token.now) }
{
    match role_of(token) {
        Role::Named => Ok(Some(SingleForm::Name(token.copy()?))),
        _ => match token_literal(token)? {
            Some(literal) => Ok(Some(SingleForm::Literal(literal))),
            None => Ok(None),
        },
    }
}

/// Whether these two tokens are a negative integer.
fn is_negative(sign: &Token, digits: &Token) -> bool
    ensures { result ≡ is_negative (rules.role_of sign.now) (rules.role_of digits.now) }
{
    matches!(role_of(sign), Role::Minus) && matches!(role_of(digits), Role::Integer)
}

fn negative_single(sign: &Token, digits: &Token) -> Result<Option<SingleForm>, AllocError>
    ensures { IfOk result (λ found. option_map seen_single found
        ≡ spec.negative_single (rules.role_of sign.now)
        (rules.role_of digits.now) sign.now digits.now) }
{
    if is_negative(sign, digits) {
        Ok(Some(SingleForm::Literal(negative(sign, digits)?)))
    } else {
        Ok(None)
    }
}

/// `#()` as the value of a singleton type.
fn single_group(
    opener: &Token,
    inner: &[Fragment],
    closer: &Token,
) -> Result<Option<SingleForm>, AllocError>
    ensures { IfOk result (λ found. option_map seen_single found
        ≡ spec.single_group (rules.bracket_of opener.now closer.now)
        (pack (seen_fragments inner.now)) opener.now) }
{
    match bracket_of(opener, closer) {
        Bracket::SharpRound => {
            if inner.is_empty() {
                Ok(Some(SingleForm::Empty {
                    opener: opener.copy()?,
                }))
            } else {
                Ok(None)
            }
        }
        _ => Ok(None),
    }
}

fn single_alone(fragment: &Fragment) -> Result<Option<SingleForm>, AllocError>
    ensures { IfOk result (λ found. option_map seen_single found
        ≡ spec.single_in (seen_fragment fragment.now ∷ [])) }
{
    match fragment {
        Fragment::One(token) => single_token(token),
        Fragment::Group {
            opener,
            inner,
            closer,
        } => single_group(opener, inner.as_slice(), closer),
    }
}

fn single_pair(first: &Fragment, second: &Fragment) -> Result<Option<SingleForm>, AllocError>
    ensures { IfOk result (λ found. option_map seen_single found
        ≡ spec.single_in (seen_fragment first.now ∷ seen_fragment second.now ∷ [])) }
{
    match first {
        Fragment::One(sign) => match second {
            Fragment::One(digits) => negative_single(sign, digits),
            Fragment::Group { .. } => Ok(None),
        },
        Fragment::Group { .. } => Ok(None),
    }
}

#[tactic(auto, using(crate::proofs::Singles::single_longer))]
fn single_from(first: &Fragment, rest: &[Fragment]) -> Result<Option<SingleForm>, AllocError>
    ensures { IfOk result (λ found. option_map seen_single found
        ≡ spec.single_in (seen_fragment first.now ∷ seen_fragments rest.now)) }
{
    match rest.split_first() {
        None => single_alone(first),
        Some((second, others)) => {
            if others.is_empty() {
                single_pair(first, second)
            } else {
                Ok(None)
            }
        }
    }
}

/// The value of a singleton type.
pub fn single_in(fragments: &[Fragment]) -> Result<Option<SingleForm>, AllocError>
    ensures { IfOk result (λ found. option_map seen_single found
        ≡ spec.single_in (seen_fragments fragments.now)) }
{
    match fragments.split_first() {
        None => Ok(None),
        Some((first, rest)) => single_from(first, rest),
    }
}

fn plain_integer(digits: &Token) -> Result<Option<IntegerForm>, AllocError>
    ensures { IfOk result (λ found. found
        ≡ spec.plain_integer (rules.role_of digits.now) digits.now) }
{
    match role_of(digits) {
        Role::Integer => Ok(Some(IntegerForm {
            minus: None,
            digits: digits.copy()?,
        })),
        _ => Ok(None),
    }
}

fn negative_integer(sign: &Token, digits: &Token) -> Result<Option<IntegerForm>, AllocError>
    ensures { IfOk result (λ found. found
        ≡ spec.negative_integer_of (rules.role_of sign.now)
        (rules.role_of digits.now) sign.now digits.now) }
{
    if is_negative(sign, digits) {
        Ok(Some(IntegerForm {
            minus: Some(sign.copy()?),
            digits: digits.copy()?,
        }))
    } else {
        Ok(None)
    }
}

/// An integer, with a minus before it or without.
pub fn integer_in(fragments: &[Fragment]) -> Result<Option<IntegerForm>, AllocError>
    ensures { IfOk result (λ found. found ≡ spec.integer_in (seen_fragments fragments.now)) }
{
    match fragments {
        [Fragment::One(digits)] => plain_integer(digits),
        [Fragment::One(sign), Fragment::One(digits)] => negative_integer(sign, digits),
        _ => Ok(None),
    }
}

/// A bound of a limited type.
pub fn bound_in(fragments: &[Fragment]) -> Result<Option<BoundForm>, AllocError>
    ensures { IfOk result (λ found. option_map seen_bound found
        ≡ spec.bound_in (seen_fragments fragments.now)) }
{
    match fragments {
        [Fragment::One(keyword), digits @ ..] if is_bound(keyword) => match integer_in(digits)? {
            Some(number) => Ok(Some(BoundForm {
                keyword: keyword.copy()?,
                number,
            })),
            None => Ok(None),
        },
        _ => Ok(None),
    }
}
