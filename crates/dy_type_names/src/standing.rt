//! What constants stand for.

ghost use Rattle.std.specs.Prelude.{◌≡◌, ℕ, ◌∷◌, ◌++◌, [], length, OnOk, OnErr};
ghost use Rattle.std.specs.Prelude.{if◌then◌else◌};
ghost use Rattle.std.specs.Option.{option_copied};
ghost use Rattle.dy_base.specs.declared.ids.BindingId.{BindingId};
ghost use Rattle.dy_type_names.specs.Constants.{is_row, row_of};
ghost use Rattle.dy_type_names.specs.Standings.{rows_in, standing_in, or_no_type, IsThere};

use dy_base::{BindingId, What};
use dy_term::DyType;
use std::alloc::{AllocError, Global};

/// What a constant stands for in a type.
#[derive(Debug, Drop)]
pub enum Standing {
    /// It is no type constant.
    NoType,
    Stands(DyType),
    /// It is a type constant, and something is wrong with it.
    Faulty,
}

/// What the constants of some libraries stand for, by the place of the library and the row. One
/// that is not there is no type constant. Each is found in constant time.
#[derive(Drop)]
pub struct NamedTypes {
    libraries: Vec<Vec<Standing>>,
}

impl NamedTypes {
    /// Of no library. It takes no memory.
    pub fn new(alloc: Global) -> NamedTypes
        ensures { rows_in result ≡ [] }
    {
        NamedTypes {
            libraries: Vec::new(alloc),
        }
    }

    /// Of how many libraries.
    pub fn len(&self) -> usize
        ensures { result ≡ length (rows_in self.now) }
    {
        self.libraries.len()
    }

    /// What a binding stands for, or `None` where nothing is there of it.
    pub fn get(&self, binding: BindingId) -> Option<&Standing>
        ensures { or_no_type (option_copied result) ≡ standing_in self.now binding }
    {
        match binding.what {
            What::Constant => {
                let rows = self.libraries.get(binding.at.library as usize)?;
                rows.get(binding.at.row as usize)
            }
            What::Class | What::Generic | What::Variable | What::Function | What::Macro => None,
        }
    }

    /// Adds the next library, with what its rows stand for. The one error is want of memory, and
    /// then nothing is added.
    pub fn push(&mut self, rows: Vec<Standing>) -> Result<(), AllocError>
        ensures ok { OnOk result (rows_in self.new ≡ rows_in self.old ++ rows.items ∷ []) }
        ensures err { OnErr result (rows_in self.new ≡ rows_in self.old) }
    {
        self.libraries.push(rows)?;
        Ok(())
    }

    /// Puts what a row of a library stands for in place of what is there.
    pub(crate) fn set(&mut self, library: u32, row: u32, standing: Standing)
        requires { IsThere library row (rows_in self.now) }
        ensures standing { (b : BindingId) → standing_in self.new b
            ≡ (if is_row row (row_of library b) then standing else standing_in self.old b) }
        ensures there { (n : ℕ) → IsThere library n (rows_in self.old)
            → IsThere library n (rows_in self.new) }
    {
        self.libraries[library as usize][row as usize] = standing;
    }
}
