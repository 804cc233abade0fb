//! Sets of names.

ghost use Rattle.std.specs.Prelude.{◌≡◌, ◌++◌, ◌∷◌, [], length, position, slice_get, OnOk, OnErr};
ghost use Rattle.std.specs.Prelude.{if◌then◌else◌};
ghost use Rattle.std.specs.Str.{bytes_eq};
ghost use Rattle.std.specs.Option.{option_map};
ghost use Rattle.dy_modules.specs.Clauses.{is_one_of};

use dy_base::NameList;
use std::alloc::{AllocError, Global};
use std::marker::Model;

/// Some names, each once, in the order in which they were first put.
#[derive(Drop)]
pub struct NameSet {
    list: NameList<()>,
}

impl Model for NameSet {
    ghost use Rattle.std.specs.Prelude.{List, ℕ};
    ghost use Rattle.dy_base.specs.Tables.{names};

    ghost Value = { List (List ℕ) };

    ghost view = { λ set. names set.list };
}

impl NameSet {
    /// No names. It takes no memory.
    pub fn new(alloc: Global) -> Self
        ensures { result ≡ [] }
    {
        NameSet {
            list: NameList::new(alloc),
        }
    }

    /// How many names there are.
    pub fn len(&self) -> usize
        ensures { result ≡ length self.now }
    {
        self.list.len()
    }

    /// Whether a name is there.
    pub fn has(&self, name: &[u8]) -> bool
        ensures { result ≡ is_one_of self.now name.now }
    {
        self.list.place_of(name).is_some()
    }

    /// The place of a name, from 0, or `None` where it is not there.
    pub fn place_of(&self, name: &[u8]) -> Option<usize>
        ensures { result ≡ position (bytes_eq name.now) self.now }
    {
        self.list.place_of(name)
    }

    /// The name at a place, or `None` behind the last.
    pub fn at(&self, place: usize) -> Option<&[u8]>
        ensures { option_map (λ name. name.now) result ≡ slice_get self.now place }
    {
        let (name, _) = self.list.at(place)?;
        Some(name)
    }

    /// Adds a name, at the end where it is new.
    pub fn add(&mut self, alloc: Global, name: &[u8]) -> Result<(), AllocError>
        ensures added { OnOk result
            (self.new ≡ (if is_one_of self.old name.now then self.old
            else self.old ++ name.now ∷ [])) }
        ensures err { OnErr result (self.new ≡ self.old) }
    {
        self.list.set(alloc, name, ())
    }
}
