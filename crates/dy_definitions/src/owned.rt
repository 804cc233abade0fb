//! Tables by the names that modules own.

ghost use Rattle.std.specs.Prelude.{◌≡◌, ℕ, ◌&&◌, nat_eq, cond, List, Some, None, IfOk, OnOk};
ghost use Rattle.std.specs.Str.{bytes_eq};
ghost use Rattle.dy_definitions.specs.Seen.{tally_in, meanings_in};

use crate::tally::Tally;
use dy_base::BindingId;
use std::alloc::{AllocError, Global};
use std::collections::BTreeMap;

/// The tally of each name of each module.
#[derive(Drop)]
pub struct TallyTable {
    pub entries: BTreeMap<(usize, Vec<u8>), Tally>,
}

/// What the names of modules mean.
#[derive(Drop)]
pub struct MeaningTable {
    pub entries: BTreeMap<(usize, Vec<u8>), BindingId>,
}

impl TallyTable {
    pub fn new(alloc: Global) -> TallyTable
        ensures { (c : ℕ) (a : List ℕ) → tally_in result c a ≡ None }
    {
        TallyTable {
            entries: BTreeMap::new(alloc),
        }
    }

    #[tactic(auto, unfolding(crate::specs::Seen::tally_in))]
    pub fn get(
        &self,
        alloc: Global,
        number: usize,
        name: &[u8],
    ) -> Result<Option<Tally>, AllocError>
        ensures { IfOk result (λ found. found ≡ tally_in self.now number name.now) }
    {
        let key = (number, name.to_vec(alloc)?);
        match self.entries.get(&key) {
            Some(tally) => Ok(Some(*tally)),
            None => Ok(None),
        }
    }

    pub fn set(
        &mut self,
        alloc: Global,
        number: usize,
        name: &[u8],
        tally: Tally,
    ) -> Result<(), AllocError>
        ensures { OnOk result ((c : ℕ) (a : List ℕ) → tally_in self.new c a
            ≡ cond (nat_eq number c && bytes_eq name.now a) (Some tally)
            (tally_in self.old c a)) }
    {
        let key = (number, name.to_vec(alloc)?);
        self.entries.insert(key, tally)?;
        Ok(())
    }
}

impl MeaningTable {
    pub fn new(alloc: Global) -> MeaningTable
        ensures { (c : ℕ) (a : List ℕ) → meanings_in result c a ≡ None }
    {
        MeaningTable {
            entries: BTreeMap::new(alloc),
        }
    }

    pub fn get(
        &self,
        alloc: Global,
        number: usize,
        name: &[u8],
    ) -> Result<Option<BindingId>, AllocError>
        ensures { IfOk result (λ found. found ≡ meanings_in self.now number name.now) }
    {
        let key = (number, name.to_vec(alloc)?);
        Ok(self.entries.get(&key).copied())
    }

    pub fn set(
        &mut self,
        alloc: Global,
        number: usize,
        name: &[u8],
        meaning: BindingId,
    ) -> Result<(), AllocError>
        ensures { OnOk result ((c : ℕ) (a : List ℕ) → meanings_in self.new c a
            ≡ cond (nat_eq number c && bytes_eq name.now a) (Some meaning)
            (meanings_in self.old c a)) }
    {
        let key = (number, name.to_vec(alloc)?);
        self.entries.insert(key, meaning)?;
        Ok(())
    }
}
