//! The words that open a statement or follow `define`.

use crate::macros::MacroKind;
use dy_base::{Items, Name};

/// A word that a module knows.
#[derive(Debug, Drop)]
pub struct Word {
    /// The number of the module.
    pub module: u32,
    pub name: Name,
    /// For a built-in word a statement or a definition, for a macro its kind.
    pub kind: MacroKind,
    /// The macro's place in the list of macros, or nothing for a built-in word.
    pub at: Option<u32>,
}

/// All words that are known.
#[derive(Debug, Drop)]
pub struct Words {
    pub items: Items<Word>,
}
