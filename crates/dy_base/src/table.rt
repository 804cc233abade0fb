//! A table by name.

ghost use Rattle.std.specs.Prelude.{◌≡◌, OnOk, OnErr};
ghost use Rattle.std.specs.Option.{option_copied};
ghost use Rattle.std.specs.FinMap as map;

use indexmap::IndexMap;
use std::alloc::{AllocError, Global};
use std::collections::BTreeMap;
use std::marker::Model;

/// How many names of a table are hashed.
const MOST_HASHED: usize = 1024;

/// A value for each of some names. Names are compared byte by byte.
///
/// The first names are found by a hash whose seed is fixed, so whoever picks them can make a
/// search walk over all of them. The others stand in an ordered map, so it walks no further.
#[derive(Drop)]
pub struct NameTable<V> {
    hashed: IndexMap<Vec<u8>, V>,
    ordered: BTreeMap<Vec<u8>, V>,
}

impl<V> Model for NameTable<V> {
    ghost use Rattle.std.specs.Prelude.{◌++◌};
    ghost use Rattle.std.specs.FinMap as map;
    ghost use Rattle.std.specs.Coded.{coded_list, coded_ℕ};
    ghost use Rattle.dy_base.specs.Tables.{NameMap, named, table_of};

    ghost Value = { NameMap V };

    ghost coded = { map.code (coded_list coded_ℕ) V.code };

    ghost view = { λ t. table_of (named t.hashed.entries ++ named t.ordered.entries) };
}

impl<V> NameTable<V> {
    /// No names. It takes no memory.
    pub fn new(alloc: Global) -> Self
        ensures { result ≡ map.empty }
    {
        NameTable {
            hashed: IndexMap::new(alloc),
            ordered: BTreeMap::new(alloc),
        }
    }

    /// The value at a name, or `None` where there is none.
    pub fn get(&self, name: &[u8]) -> Option<&V>
        ensures { option_copied result ≡ map.get self.now name.now }
    {
        match self.hashed.get(name) {
            Some(value) => Some(value),
            None => self.ordered.get(name),
        }
    }
}

impl<V: Drop> NameTable<V> {
    /// Puts a value at a name, in place of the one there. Where memory is short, the table stays.
    pub fn set(&mut self, alloc: Global, name: &[u8], value: V) -> Result<(), AllocError>
        ensures set { OnOk result (self.new ≡ map.insert self.old name.now value) }
        ensures err { OnErr result (self.new ≡ self.old) }
    {
        let is_hashed = self.hashed.contains_key(name);
        let name = name.to_vec(alloc)?;
        if is_hashed || self.hashed.len() < MOST_HASHED {
            self.hashed.insert(name, value)?;
            return Ok(());
        }
        self.ordered.insert(name, value)?;
        Ok(())
    }
}
