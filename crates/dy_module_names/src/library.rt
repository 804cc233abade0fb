//! What the forms of a library define.

use crate::reading::definitions;
use dy_base::{Items, Place};
use dy_definitions::{Defined, Definition};
use dy_module_tables::{ModuleTable, OpenTable};
use dy_term::Draft;
use dy_tree::Words;
use std::alloc::{AllocError, Global};

/// What a library defines, by the forms of its files.
#[derive(Drop)]
pub struct LibraryDefinitions {
    /// Its modules.
    pub modules: OpenTable,
    /// Its definitions, in the order of the text.
    pub definitions: Items<Definition>,
    /// The rows of the names that its modules own, and the definitions that are one too many.
    pub defined: Defined,
}

impl LibraryDefinitions {
    ghost use Rattle.std.specs.Prelude.{map, IfOk};
    ghost use Rattle.dy_library_rows.specs.Libraries.{seen_form};
    ghost use Rattle.dy_module_names.specs.Given.{IsGiven, IsLaidOpen};

    /// What these forms define in the modules of this table, in the order of the text, where the
    /// library has this number in the load order and these are the words that are known; and the
    /// definitions that are one too many. The tables stay as they are (`laid`). The one error is
    /// want of memory, or of numbers for rows.
    pub fn of_forms(
        alloc: Global,
        library: u32,
        words: &Words,
        table: ModuleTable,
        forms: &[(Place, Draft)],
    ) -> Result<LibraryDefinitions, AllocError>
        ensures given { IfOk result
            (λ given. IsGiven table library words.now.items (map seen_form forms.now) given) }
        ensures laid { IfOk result (λ given. IsLaidOpen table given.modules) }
    {
        let modules = table.lay_open();
        let definitions = definitions(alloc, &modules, forms)?;
        let defined = Defined::of(alloc, library, words, definitions.as_slice())?;
        Ok(LibraryDefinitions {
            modules,
            definitions,
            defined,
        })
    }
}
