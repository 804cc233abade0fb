//! What the definitions of a library define.

use crate::counting::count_all;
use crate::definitions::Definition;
use crate::meanings::meanings_of;
use crate::owned::MeaningTable;
use crate::redefined::all_redefined;
use dy_base::{Fault, Items};
use dy_tree::Words;
use std::alloc::{AllocError, Global};

/// What the definitions of a library define.
#[derive(Drop)]
pub struct Defined {
    /// The rows of the names that the library's modules own.
    pub meanings: MeaningTable,
    /// The faults of the definitions that are one too many, in the order of the text.
    pub redefined: Items<Fault>,
}

impl Defined {
    ghost use Rattle.std.specs.Prelude.{◌≡◌, IfOk};
    ghost use Rattle.dy_definitions.specs.Means.{meanings_of};
    ghost use Rattle.dy_definitions.specs.Redefined.{all_redefined};
    ghost use Rattle.dy_definitions.specs.Seen.{meanings_in};

    /// What these definitions, in the order of the text, define, where the library has this number
    /// in the load order, and these are the words that are known. The one error is want of memory,
    /// or of numbers for rows.
    pub fn of(
        alloc: Global,
        library: u32,
        words: &Words,
        definitions: &[Definition],
    ) -> Result<Defined, AllocError>
        ensures meanings { IfOk result
            (λ d. meanings_in d.meanings ≡ meanings_of library definitions.now) }
        ensures redefined { IfOk result
            (λ d. d.redefined ≡ all_redefined words.now.items definitions.now) }
    {
        let all = count_all(alloc, definitions)?;
        let redefined = all_redefined(alloc, words.items.as_slice(), &all, definitions)?;
        let meanings = meanings_of(alloc, library, &all, definitions)?;
        Ok(Defined {
            meanings,
            redefined,
        })
    }
}
