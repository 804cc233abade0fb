//! What a use clause makes of a name.

ghost use Rattle.std.specs.Prelude.{◌≡◌, IfOk};
ghost use Rattle.std.specs.Option.{option_map};
ghost use Rattle.dy_modules.specs.Clauses.{new_name, brought, is_again};
ghost use Rattle.dy_modules.specs.Cells.{is_kept, picked};

use crate::names::NameSet;
use crate::owner::Owner;
use dy_base::{Items, Name, NameList};
use std::alloc::{AllocError, Global};

/// A use clause over the names of a module (DRM 4, "Modules"), or over the modules of a library.
#[derive(Drop)]
pub struct UseClause {
    /// The number of the used module.
    pub source: usize,
    /// The names that are chosen, or all.
    pub chosen: Option<NameSet>,
    /// The names that are left out.
    pub excluded: NameSet,
    /// The names that take a new name, with it.
    pub renamed: NameList<Name>,
    /// What every other name takes before it.
    pub prefix: Name,
    /// Whether all names that come in are exported again.
    pub again_all: bool,
    /// The names that are exported again, by their new names.
    pub again: NameSet,
}

/// A module: one of the library, or one of a used library.
#[derive(Drop)]
pub struct ModuleForm {
    /// The names that it exports whatever its clauses bring, with their owners: those that it
    /// creates, which are its own, and those that a module of a used library exports.
    pub given: NameList<Owner>,
    /// The names of its export clauses.
    pub listed: NameSet,
    /// Its use clauses.
    pub uses: Items<UseClause>,
}

fn new_name(alloc: Global, u: &UseClause, a: &[u8]) -> Result<Vec<u8>, AllocError>
    ensures { IfOk result (λ n. n.items ≡ new_name u.now a.now) }
{
    match u.renamed.get(a) {
        Some(name) => name.bytes().to_vec(alloc),
        None => {
            let mut name = u.prefix.bytes().to_vec(alloc)?;
            name.extend_from_slice(a)?;
            Ok(name)
        }
    }
}

fn is_chosen(u: &UseClause, a: &[u8]) -> bool
    ensures { result ≡ Rattle.dy_modules.specs.Clauses.is_chosen u.now.chosen a.now }
{
    match &u.chosen {
        Some(names) => names.has(a),
        None => true,
    }
}

#[tactic(auto, unfolding(crate::specs::Clauses::is_again))]
fn is_again(u: &UseClause, n: &[u8]) -> bool
    ensures { result ≡ is_again u.now n.now }
{
    u.again_all || u.again.has(n)
}

/// The new name of a name that the source exports, or `None` where the clause leaves it out.
#[tactic(auto, unfolding(crate::specs::Clauses::brought))]
pub fn brought(alloc: Global, u: &UseClause, a: &[u8]) -> Result<Option<Vec<u8>>, AllocError>
    ensures { IfOk result (λ o. option_map (λ n. n.items) o ≡ brought u.now a.now) }
{
    if u.excluded.has(a) {
        return Ok(None);
    }
    if !is_chosen(u, a) {
        return Ok(None);
    }
    Ok(Some(new_name(alloc, u, a)?))
}

fn is_kept(again_only: bool, u: &UseClause, n: &[u8]) -> bool
    ensures { result ≡ is_kept again_only u.now n.now }
{
    !again_only || is_again(u, n)
}

/// The new name, or of that what is exported again.
pub fn picked(
    alloc: Global,
    again_only: bool,
    u: &UseClause,
    a: &[u8],
) -> Result<Option<Vec<u8>>, AllocError>
    ensures { IfOk result (λ o. option_map (λ n. n.items) o ≡ picked again_only u.now a.now) }
{
    match brought(alloc, u, a)? {
        Some(n) => {
            if is_kept(again_only, u, &n) {
                Ok(Some(n))
            } else {
                Ok(None)
            }
        }
        None => Ok(None),
    }
}
