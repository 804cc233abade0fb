//! The options of a use clause.

ghost use Rattle.std.specs.Prelude.{◌≡◌, IfOk, codes, option_map};
ghost use Rattle.std.specs.List.{list_any};
ghost use Rattle.dy_tree.specs.Fragments.{seen_fragment, seen_fragments};
ghost use Rattle.dy_rules.specs.Roles.{role_of};
ghost use Rattle.dy_module_forms.specs.Clauses as spec;
ghost use Rattle.dy_module_forms.specs.Cuts.{each, parts_behind, seen_slice};

use crate::cuts::split_part;
use crate::sets::{members_or_all, members_set, names_or_all, names_set};
use crate::written::UseOption;
use dy_base::{Items, Name, fold};
use dy_read_words::role::role_of;
use dy_tree::{Fragment, Role, Token};
use std::alloc::{AllocError, Global};

fn is_text(token: &Token) -> bool
    ensures { result ≡ spec.is_text (role_of token.now) }
{
    matches!(role_of(token), Role::Text)
}

fn text_of(alloc: Global, fragment: &Fragment) -> Result<Option<Name>, AllocError>
    ensures { IfOk result (λ found. found ≡ spec.text_of (seen_fragment fragment.now)) }
{
    match fragment {
        Fragment::One(token) => {
            if is_text(token) {
                Ok(Some(fold(alloc, token.text.bytes())?))
            } else {
                Ok(None)
            }
        }
        Fragment::Group { .. } => Ok(None),
    }
}

fn import_of(alloc: Global, value: &Fragment) -> Result<Option<UseOption>, AllocError>
    ensures { IfOk result (λ found. found ≡ spec.import_of (seen_fragment value.now)) }
{
    match members_or_all(alloc, value)? {
        Some(set) => Ok(Some(UseOption::Import(set))),
        None => Ok(None),
    }
}

fn exclude_of(alloc: Global, value: &Fragment) -> Result<Option<UseOption>, AllocError>
    ensures { IfOk result (λ found. found ≡ spec.exclude_of (seen_fragment value.now)) }
{
    match names_set(alloc, value)? {
        Some(set) => Ok(Some(UseOption::Exclude(set))),
        None => Ok(None),
    }
}

fn rename_of(alloc: Global, value: &Fragment) -> Result<Option<UseOption>, AllocError>
    ensures { IfOk result (λ found. found ≡ spec.rename_of (seen_fragment value.now)) }
{
    match members_set(alloc, value)? {
        Some(set) => Ok(Some(UseOption::Rename(set))),
        None => Ok(None),
    }
}

fn prefix_of(alloc: Global, value: &Fragment) -> Result<Option<UseOption>, AllocError>
    ensures { IfOk result (λ found. found ≡ spec.prefix_of (seen_fragment value.now)) }
{
    match text_of(alloc, value)? {
        Some(text) => Ok(Some(UseOption::Prefix(text))),
        None => Ok(None),
    }
}

fn export_of(alloc: Global, value: &Fragment) -> Result<Option<UseOption>, AllocError>
    ensures { IfOk result (λ found. found ≡ spec.export_of (seen_fragment value.now)) }
{
    match names_or_all(alloc, value)? {
        Some(set) => Ok(Some(UseOption::Export(set))),
        None => Ok(None),
    }
}

fn option_named(
    alloc: Global,
    word: &Token,
    value: &Fragment,
) -> Result<Option<UseOption>, AllocError>
    ensures { IfOk result (λ found. found ≡ spec.option_named word.now (seen_fragment value.now)) }
{
    if word.is_spelled(b"import") {
        import_of(alloc, value)
    } else if word.is_spelled(b"exclude") {
        exclude_of(alloc, value)
    } else if word.is_spelled(b"rename") {
        rename_of(alloc, value)
    } else if word.is_spelled(b"prefix") {
        prefix_of(alloc, value)
    } else if word.is_spelled(b"export") {
        export_of(alloc, value)
    } else {
        Ok(None)
    }
}

fn is_symbol(token: &Token) -> bool
    ensures { result ≡ spec.is_symbol (role_of token.now) }
{
    matches!(role_of(token), Role::Symbol)
}

fn option_behind(
    alloc: Global,
    word: &Fragment,
    value: &Fragment,
) -> Result<Option<UseOption>, AllocError>
    ensures { IfOk result (λ found. found
        ≡ spec.option_behind (seen_fragment word.now) (seen_fragment value.now)) }
{
    match word {
        Fragment::One(token) => {
            if is_symbol(token) {
                option_named(alloc, token, value)
            } else {
                Ok(None)
            }
        }
        Fragment::Group { .. } => Ok(None),
    }
}

fn option_of(alloc: Global, fragments: &[Fragment]) -> Result<Option<UseOption>, AllocError>
    ensures { IfOk result (λ found. found ≡ spec.option_of (seen_fragments fragments.now)) }
{
    match fragments {
        [word, value] => option_behind(alloc, word, value),
        _ => Ok(None),
    }
}

/// The options behind a comma, if one follows, whether or not one stands twice.
pub(crate) fn options_of<'a>(
    alloc: Global,
    others: Option<&'a [Fragment]>,
) -> Result<Option<Items<UseOption>>, AllocError>
    ensures { IfOk result (λ found. found
        ≡ each spec.option_of (parts_behind (codes ",") (option_map seen_slice others.entry))) }
{
    let mut options = Items::new(alloc);
    let mut next = others;
    while let Some(rest) = next {
        let (part, others) = split_part(b",", rest);
        match option_of(alloc, part)? {
            Some(option) => options.push(option)?,
            None => return Ok(None),
        }
        next = others;
    }
    Ok(Some(options))
}

fn option_number(option: &UseOption) -> u8
    ensures { result ≡ spec.option_number option.now }
{
    match option {
        UseOption::Import(_) => 0,
        UseOption::Exclude(_) => 1,
        UseOption::Rename(_) => 2,
        UseOption::Prefix(_) => 3,
        UseOption::Export(_) => 4,
    }
}

fn any_alike(option: &UseOption, options: &[UseOption]) -> bool
    ensures { result ≡ list_any (spec.is_alike option.now) options.now }
{
    for other in options {
        if option_number(option) == option_number(other) {
            return true;
        }
    }
    false
}

/// Whether each option stands at most once.
pub(crate) fn are_once(options: &[UseOption]) -> bool
    ensures { result ≡ spec.are_once options.now }
{
    let mut rest = options;
    while let Some((first, others)) = rest.split_first() {
        if any_alike(first, others) {
            return false;
        }
        rest = others;
    }
    true
}
