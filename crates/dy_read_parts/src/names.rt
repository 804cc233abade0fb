//! Names and symbols that stand where nothing else may.

ghost use Rattle.std.specs.Prelude.{◌≡◌, IfOk, option_map};
ghost use Rattle.dy_tree.specs.Fragments.{seen_fragment, seen_fragments};
ghost use Rattle.dy_rules.specs.Blocks.{exit_in, exit_inside};
ghost use Rattle.dy_rules.specs.FormReading.{names_in, names_inside, setter_in, symbol_in};
ghost use Rattle.dy_rules.specs.SeenForms.{seen_option};
ghost use Rattle.dy_rules.specs.TypeReading.{name_in};
ghost use Rattle.dy_read_parts.specs.Front.{seen_front};
ghost use Rattle.dy_read_parts.specs.Names.{name_at, tokens_in};

use crate::front::Front;
use crate::separator::{Separator, separates};
use dy_read_words::alone::{token_alone, token_of};
use dy_read_words::option_word::is_setter;
use dy_read_words::role::role_of;
use dy_tree::{Fragment, Role, SlotOption, Token};
use std::alloc::{AllocError, Global};

/// The name that a fragment is.
pub fn name_at(fragment: &Fragment) -> Option<&Token>
    ensures { option_map (λ token. token.now) result ≡ name_at (seen_fragment fragment.now) }
{
    match token_of(fragment) {
        Some(token) if matches!(role_of(token), Role::Named) => Some(token),
        _ => None,
    }
}

/// The symbol that stands alone.
#[tactic(auto, using(crate::proofs::NameRows::symbol_alone))]
pub fn symbol_in(fragments: &[Fragment]) -> Result<Option<Token>, AllocError>
    ensures { IfOk result (λ found. found ≡ symbol_in (seen_fragments fragments.now)) }
{
    match token_alone(fragments) {
        Some(token) if matches!(role_of(token), Role::Symbol) => Ok(Some(token.copy()?)),
        _ => Ok(None),
    }
}

/// The name of a setter, or `#f`, that stands alone.
#[tactic(auto, using(crate::proofs::NameRows::setter_alone))]
pub fn setter_in(fragments: &[Fragment]) -> Result<Option<SlotOption>, AllocError>
    ensures { IfOk result (λ found. option_map seen_option found
        ≡ setter_in (seen_fragments fragments.now)) }
{
    match token_alone(fragments) {
        Some(token) if is_setter(token) => Ok(Some(SlotOption::Setter(token.copy()?))),
        _ => Ok(None),
    }
}

/// The name of an exit procedure, where there is one.
#[tactic(auto, using(crate::proofs::NameRows::exit_alone))]
pub fn exit_in(fragments: &[Fragment]) -> Result<Option<Option<Token>>, AllocError>
    ensures { IfOk result (λ found. found ≡ exit_in (seen_fragments fragments.now)) }
{
    match fragments {
        [] => Ok(Some(None)),
        [only] => match name_at(only) {
            Some(name) => Ok(Some(Some(name.copy()?))),
            None => Ok(None),
        },
        _ => Ok(None),
    }
}

/// The same between brackets.
#[tactic(auto, using(dy_rules::proofs::Lists::row_pack))]
pub fn exit_inside(front: &Front<'_>) -> Result<Option<Option<Token>>, AllocError>
    ensures { IfOk result (λ found. found ≡ exit_inside (seen_front front.now).first.fragment) }
{
    exit_in(front.inner)
}

/// The name behind a mark.
#[tactic(auto, using(crate::proofs::NameRows::name_behind))]
pub fn name_in(fragments: &[Fragment]) -> Result<Option<Token>, AllocError>
    ensures { IfOk result (λ found. found ≡ name_in (seen_fragments fragments.now)) }
{
    match fragments {
        [Fragment::One(_), second] => match name_at(second) {
            Some(name) => Ok(Some(name.copy()?)),
            None => Ok(None),
        },
        _ => Ok(None),
    }
}

/// Names with commas between them.
pub fn names_in(alloc: Global, fragments: &[Fragment]) -> Result<Option<Vec<Token>>, AllocError>
    ensures { IfOk result (λ found. option_map tokens_in found
        ≡ names_in (seen_fragments fragments.now)) }
{
    let mut names = Vec::new(alloc);
    let mut rest = fragments;
    while let Some((first, behind)) = rest.split_first() {
        match name_at(first) {
            Some(name) => names.push(name.copy()?)?,
            None => return Ok(None),
        }
        match behind.split_first() {
            None => return Ok(Some(names)),
            Some((separator, others)) if separates(Separator::Comma, separator) => rest = others,
            Some(_) => return Ok(None),
        }
    }
    Ok(None)
}

/// The same between brackets.
#[tactic(auto, using(dy_rules::proofs::Lists::row_pack))]
pub fn names_inside(alloc: Global, front: &Front<'_>) -> Result<Option<Vec<Token>>, AllocError>
    ensures { IfOk result (λ found. option_map tokens_in found
        ≡ names_inside (seen_front front.now).first.fragment) }
{
    names_in(alloc, front.inner)
}
