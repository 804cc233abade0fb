//! Sets in braces.

ghost use Rattle.std.specs.Prelude.{◌≡◌, IfOk, codes, option_map};
ghost use Rattle.dy_module_forms.specs.Cuts.{each, parts};
ghost use Rattle.dy_tree.specs.Fragments.{seen_fragment, seen_fragments};
ghost use Rattle.dy_module_forms.specs.Clauses as spec;

use crate::cuts::{is_mark, split_part};
use crate::names::{name_of, names_of};
use crate::written::Member;
use dy_base::{Items, Name};
use dy_tree::Fragment;
use std::alloc::{AllocError, Global};

fn renamed(alloc: Global, name: &Fragment, new: &Fragment) -> Result<Option<Member>, AllocError>
    ensures { IfOk result (λ found. found
        ≡ spec.renamed (spec.name_of (seen_fragment name.now))
        (spec.name_of (seen_fragment new.now))) }
{
    match name_of(alloc, name)? {
        Some(name) => match name_of(alloc, new)? {
            Some(new) => Ok(Some(Member {
                name,
                new: Some(new),
            })),
            None => Ok(None),
        },
        None => Ok(None),
    }
}

fn plain(alloc: Global, only: &Fragment) -> Result<Option<Member>, AllocError>
    ensures { IfOk result (λ found. found
        ≡ option_map spec.plain (spec.name_of (seen_fragment only.now))) }
{
    match name_of(alloc, only)? {
        Some(name) => Ok(Some(Member { name, new: None })),
        None => Ok(None),
    }
}

fn member_of(alloc: Global, fragments: &[Fragment]) -> Result<Option<Member>, AllocError>
    ensures { IfOk result (λ found. found ≡ spec.member_of (seen_fragments fragments.now)) }
{
    match fragments {
        [only] => plain(alloc, only),
        [name, arrow, new] => {
            if is_mark(b"=>", arrow) {
                renamed(alloc, name, new)
            } else {
                Ok(None)
            }
        }
        _ => Ok(None),
    }
}

fn members_of(alloc: Global, fragments: &[Fragment]) -> Result<Option<Items<Member>>, AllocError>
    ensures { IfOk result (λ found. found
        ≡ each spec.member_of
        (parts (codes ",") (seen_fragments fragments.now))) }
{
    let mut members = Items::new(alloc);
    let mut next = Some(fragments);
    while let Some(rest) = next {
        let (part, others) = split_part(b",", rest);
        match member_of(alloc, part)? {
            Some(member) => members.push(member)?,
            None => return Ok(None),
        }
        next = others;
    }
    Ok(Some(members))
}

fn names_in(alloc: Global, inner: &[Fragment]) -> Result<Option<Items<Name>>, AllocError>
    ensures { IfOk result (λ found. found
        ≡ spec.members_in spec.name_alone (seen_fragments inner.now)) }
{
    match inner.split_first() {
        Some((_, _)) => names_of(alloc, inner),
        None => Ok(Some(Items::new(alloc))),
    }
}

/// A set of names in braces.
#[tactic(auto, using(dy_rules::proofs::Lists::row_pack))]
pub(crate) fn names_set(
    alloc: Global,
    fragment: &Fragment,
) -> Result<Option<Items<Name>>, AllocError>
    ensures { IfOk result (λ found. found
        ≡ spec.set_of spec.name_alone (seen_fragment fragment.now)) }
{
    match fragment {
        Fragment::One(_) => Ok(None),
        Fragment::Group { opener, inner, .. } => {
            if opener.is_sign(b"{") {
                names_in(alloc, inner.as_slice())
            } else {
                Ok(None)
            }
        }
    }
}

fn members_in(alloc: Global, inner: &[Fragment]) -> Result<Option<Items<Member>>, AllocError>
    ensures { IfOk result (λ found. found
        ≡ spec.members_in spec.member_of (seen_fragments inner.now)) }
{
    match inner.split_first() {
        Some((_, _)) => members_of(alloc, inner),
        None => Ok(Some(Items::new(alloc))),
    }
}

/// A set of names with new names in braces.
#[tactic(auto, using(dy_rules::proofs::Lists::row_pack))]
pub(crate) fn members_set(
    alloc: Global,
    fragment: &Fragment,
) -> Result<Option<Items<Member>>, AllocError>
    ensures { IfOk result (λ found. found
        ≡ spec.set_of spec.member_of (seen_fragment fragment.now)) }
{
    match fragment {
        Fragment::One(_) => Ok(None),
        Fragment::Group { opener, inner, .. } => {
            if opener.is_sign(b"{") {
                members_in(alloc, inner.as_slice())
            } else {
                Ok(None)
            }
        }
    }
}

fn is_all(fragment: &Fragment) -> bool
    ensures { result ≡ spec.is_all (seen_fragment fragment.now) }
{
    match fragment {
        Fragment::One(token) => token.is_word(b"all"),
        Fragment::Group { .. } => false,
    }
}

/// `all`, or a set of names.
pub(crate) fn names_or_all(
    alloc: Global,
    fragment: &Fragment,
) -> Result<Option<Option<Items<Name>>>, AllocError>
    ensures { IfOk result (λ found. found
        ≡ spec.all_or_set spec.name_alone (seen_fragment fragment.now)) }
{
    if is_all(fragment) {
        return Ok(Some(None));
    }
    match names_set(alloc, fragment)? {
        Some(set) => Ok(Some(Some(set))),
        None => Ok(None),
    }
}

/// `all`, or a set of names with new names.
pub(crate) fn members_or_all(
    alloc: Global,
    fragment: &Fragment,
) -> Result<Option<Option<Items<Member>>>, AllocError>
    ensures { IfOk result (λ found. found
        ≡ spec.all_or_set spec.member_of (seen_fragment fragment.now)) }
{
    if is_all(fragment) {
        return Ok(Some(None));
    }
    match members_set(alloc, fragment)? {
        Some(set) => Ok(Some(Some(set))),
        None => Ok(None),
    }
}
