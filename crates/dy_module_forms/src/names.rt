//! Names, alone and in lists.

ghost use Rattle.std.specs.Prelude.{◌≡◌, IfOk};
ghost use Rattle.dy_tree.specs.Fragments.{seen_fragment, seen_fragments};
ghost use Rattle.dy_rules.specs.Roles.{role_of};
ghost use Rattle.dy_module_forms.specs.Clauses as spec;

use crate::cuts::split_part;
use dy_base::{Items, Name, fold};
use dy_read_words::role::role_of;
use dy_tree::{Fragment, Role, Token};
use std::alloc::{AllocError, Global};

fn is_named(token: &Token) -> bool
    ensures { result ≡ spec.is_named (role_of token.now) }
{
    matches!(role_of(token), Role::Named)
}

/// The name that a fragment is.
pub(crate) fn name_of(alloc: Global, fragment: &Fragment) -> Result<Option<Name>, AllocError>
    ensures { IfOk result (λ found. found ≡ spec.name_of (seen_fragment fragment.now)) }
{
    match fragment {
        Fragment::One(token) => {
            if is_named(token) {
                Ok(Some(fold(alloc, token.text.bytes())?))
            } else {
                Ok(None)
            }
        }
        Fragment::Group { .. } => Ok(None),
    }
}

/// The name that stands alone.
pub(crate) fn name_alone(alloc: Global, fragments: &[Fragment]) -> Result<Option<Name>, AllocError>
    ensures { IfOk result (λ found. found ≡ spec.name_alone (seen_fragments fragments.now)) }
{
    match fragments {
        [only] => name_of(alloc, only),
        _ => Ok(None),
    }
}

/// Names with commas between them.
pub(crate) fn names_of(
    alloc: Global,
    fragments: &[Fragment],
) -> Result<Option<Items<Name>>, AllocError>
    ensures { IfOk result (λ found. found ≡ spec.names_of (seen_fragments fragments.now)) }
{
    let mut names = Items::new(alloc);
    let mut next = Some(fragments);
    while let Some(rest) = next {
        let (part, others) = split_part(b",", rest);
        match name_alone(alloc, part)? {
            Some(name) => names.push(name)?,
            None => return Ok(None),
        }
        next = others;
    }
    Ok(Some(names))
}
