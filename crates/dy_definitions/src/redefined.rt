//! Definitions that are one too many.

ghost use Rattle.std.specs.Prelude.{◌≡◌, [], IfOk, OnOk};
ghost use Rattle.dy_base.specs.Folding.{folded};
ghost use Rattle.dy_definitions.specs.Redefined.{has_meaning, is_misplaced, is_word, redefined};
ghost use Rattle.dy_definitions.specs.Passes.{no_tallies, clashes_with, is_refused};
ghost use Rattle.dy_definitions.specs.Passes.{refused_by, with_refused};
ghost use Rattle.dy_definitions.specs.Seen.{tallies_in};

use crate::counting::{count, tally_at};
use crate::definitions::{Definition, Role};
use crate::owned::TallyTable;
use crate::tally::{Tally, is_function, is_generic};
use dy_base::{Fault, Items, Kind, Text, fold};
use dy_modules::Owner;
use dy_tree::Word;
use std::alloc::{AllocError, Global};

/// Whether a definition that does this doesn't go together with one that was counted.
fn clashes_with(role: Role, earlier: Tally) -> bool
    ensures { result ≡ clashes_with role earlier }
{
    match role {
        Role::Adds => earlier.other,
        Role::Makes(what) => {
            earlier.generic || earlier.other || (earlier.adds && !is_generic(what))
        }
    }
}

/// Whether a method in a module may add to what its name means there.
fn has_meaning(
    alloc: Global,
    all: &TallyTable,
    module: u32,
    owner: &Option<Owner>,
) -> Result<bool, AllocError>
    ensures { IfOk result (λ has. has
        ≡ has_meaning (λ c a. (tallies_in all.now c a).what) «module» owner.now) }
{
    match owner {
        Some(Owner::Outside(id)) => Ok(is_generic(id.what)),
        Some(Owner::Own(number, _)) => {
            let what = tally_at(alloc, all, owner)?.what;
            if *number == module as usize {
                Ok(is_function(what))
            } else {
                Ok(what.is_some())
            }
        }
        None => Ok(false),
    }
}

/// Whether a definition stands where none of its name may, and adds to nothing.
fn is_misplaced(
    alloc: Global,
    all: &TallyTable,
    definition: &Definition,
) -> Result<bool, AllocError>
    ensures { IfOk result (λ misplaced. misplaced ≡ is_misplaced
        (λ c a. (tallies_in all.now c a).what) definition.now definition.now.role) }
{
    if definition.is_open {
        return Ok(false);
    }
    match definition.role {
        Role::Makes(_) => Ok(true),
        Role::Adds => {
            let has = has_meaning(alloc, all, definition.name.module, &definition.owner)?;
            Ok(!has)
        }
    }
}

/// Whether a text is that of a statement or of a definition of the language.
fn is_word(words: &[Word], text: &[u8]) -> bool
    ensures { result ≡ is_word words.now text.now }
{
    for word in words {
        if word.at.is_none() && word.name.bytes() == text {
            return true;
        }
    }
    false
}

/// Whether a definition is one too many.
fn is_refused(
    alloc: Global,
    words: &[Word],
    all: &TallyTable,
    earlier: &TallyTable,
    definition: &Definition,
) -> Result<bool, AllocError>
    ensures { IfOk result (λ found. found
        ≡ is_refused words.now (tallies_in all.now) (tallies_in earlier.now) definition.now) }
{
    let name = fold(alloc, definition.name.text.bytes())?;
    if is_word(words, name.bytes()) || is_misplaced(alloc, all, definition)? {
        return Ok(true);
    }
    let tally = tally_at(alloc, earlier, &definition.owner)?;
    Ok(clashes_with(definition.role, tally))
}

/// The fault of a definition that is one too many.
fn redefined(alloc: Global, definition: &Definition) -> Result<Fault, AllocError>
    ensures { IfOk result (λ fault. fault ≡ redefined definition.now) }
{
    let name = fold(alloc, definition.name.text.bytes())?;
    let mut shown = Items::new(alloc);
    shown.push(Text::of(alloc, name.bytes())?)?;
    Ok(Fault {
        kind: Kind::Redefined,
        library: Text::of(alloc, b"")?,
        place: Some(definition.place),
        shown,
        numbers: Items::new(alloc),
    })
}

/// Adds the fault of a definition that is one too many.
fn add_refused(
    alloc: Global,
    refused: bool,
    definition: &Definition,
    list: &mut Items<Fault>,
) -> Result<(), AllocError>
    ensures { OnOk result (list.new ≡ refused_by refused definition.now list.old) }
{
    if refused {
        list.push(redefined(alloc, definition)?)?;
    }
    Ok(())
}

/// The faults of those of these definitions that are one too many, in their order.
pub fn all_redefined(
    alloc: Global,
    words: &[Word],
    all: &TallyTable,
    definitions: &[Definition],
) -> Result<Items<Fault>, AllocError>
    ensures { IfOk result (λ list. list
        ≡ with_refused words.now (tallies_in all.now) no_tallies definitions.now []) }
{
    let mut earlier = TallyTable::new(alloc);
    let mut list = Items::new(alloc);
    for definition in definitions {
        let refused = is_refused(alloc, words, all, &earlier, definition)?;
        add_refused(alloc, refused, definition, &mut list)?;
        count(alloc, &mut earlier, definition)?;
    }
    Ok(list)
}
