//! Names in the order in which they came.

ghost use Rattle.std.specs.Prelude.{◌≡◌, [], length, position, slice_get, IsSome, Some, IsOk, IfOk};
ghost use Rattle.std.specs.Prelude.{OnOk, OnErr, map as list_map};
ghost use Rattle.std.specs.Option.{option_copied, option_map};
ghost use Rattle.std.specs.FinMap as map;
ghost use Rattle.std.specs.List.{range_with_len, IsDistinct};
ghost use Rattle.std.specs.Str.{bytes_eq};
ghost use Rattle.indexmap.specs.IndexMap.{insert_entry};
ghost use Rattle.dy_base.specs.Tables.{by_bytes, name_at, names, table_of};

use crate::table::NameTable;
use std::alloc::{AllocError, Global};
use std::cmp::Ordering;
use std::marker::Model;

/// A value for each of some names, in the order in which the names were first put. Names are
/// compared byte by byte.
#[derive(Drop)]
pub struct NameList<V> {
    entries: Vec<(Vec<u8>, V)>,
    places: NameTable<usize>,
}

impl<V> Model for NameList<V> {
    ghost use Rattle.std.specs.Coded.{coded×, coded_list, coded_ℕ};
    ghost use Rattle.dy_base.specs.Tables.{NamedList, named, IsIndexed};

    ghost Value = { NamedList V };

    ghost coded = { coded_list (coded× (coded_list coded_ℕ) V.code) };

    ghost view = { λ list. named list.entries.items };

    ghost invariant = { λ list. IsIndexed (named list.entries.items) list.places };
}

fn places_to(alloc: Global, count: usize) -> Result<Vec<usize>, AllocError>
    ensures { IfOk result (λ places. places.items ≡ range_with_len 0 count) }
{
    (0..count).collect(alloc)
}

impl<V> NameList<V> {
    /// No names. It takes no memory.
    pub fn new(alloc: Global) -> Self
        ensures { result ≡ [] }
    {
        NameList {
            entries: Vec::new(alloc),
            places: NameTable::new(alloc),
        }
    }

    /// How many names there are. No name is there twice.
    pub fn len(&self) -> usize
        ensures len { result ≡ length self.now }
        ensures distinct { IsDistinct bytes_eq (names self.now) }
    {
        self.entries.len()
    }

    /// The place of a name, from 0, or `None` where it is not there.
    pub fn place_of(&self, name: &[u8]) -> Option<usize>
        ensures { result ≡ position (bytes_eq name.now) (names self.now) }
    {
        self.places.get(name).copied()
    }

    /// The name at a place with its value, or `None` behind the last place.
    pub fn at(&self, place: usize) -> Option<(&[u8], &V)>
        ensures { option_map (λ p. (p.0.now, p.1.now)) result ≡ slice_get self.now place }
    {
        let entry = self.entries.get(place)?;
        Some((entry.0.as_slice(), &entry.1))
    }

    /// The value at a name, or `None` where it is not there.
    pub fn get(&self, name: &[u8]) -> Option<&V>
        ensures { option_copied result ≡ map.get (table_of self.now) name.now }
    {
        let place = self.place_of(name)?;
        Some(&self.entries[place].1)
    }

    fn name_or_empty(&self, place: usize) -> &[u8]
        ensures { result.now ≡ name_at self.now place }
    {
        match self.at(place) {
            Some((name, _)) => name,
            None => b"".as_slice(),
        }
    }

    /// The places of all names, in the order of the names' bytes. The list stays as it is.
    pub fn sorted_places(&self, alloc: Global) -> Result<Vec<usize>, AllocError>
        ensures { IfOk result (λ places. list_map (slice_get self.now) places.items
            ≡ list_map Some (map.entries (table_of self.now))) }
    {
        let mut places = places_to(alloc, self.len())?;
        places.sort_by(
            |a: &usize, b: &usize| -> Ordering
                ensures { result ≡ by_bytes (name_at self.entry.now a.now)
                    (name_at self.entry.now b.now) }
            { self.name_or_empty(*a).cmp(self.name_or_empty(*b)) },
        )?;
        Ok(places)
    }
}

impl<V: Drop> NameList<V> {
    /// Puts a value at a name, in place of the one there. A new name goes last; one that is there
    /// keeps its place, takes no memory and does not fail. Where memory is short, the list stays.
    pub fn set(&mut self, alloc: Global, name: &[u8], value: V) -> Result<(), AllocError>
        ensures order { OnOk result (self.new ≡ insert_entry bytes_eq self.old name.now value) }
        ensures table { OnOk result
            (table_of self.new ≡ map.insert (table_of self.old) name.now value) }
        ensures there { IsSome (map.get (table_of self.old) name.now) → IsOk result }
        ensures err { OnErr result (self.new ≡ self.old) }
    {
        if let Some(place) = self.place_of(name) {
            self.entries[place].1 = value;
            return Ok(());
        }
        let place = self.entries.len();
        let entry = (name.to_vec(alloc)?, value);
        self.entries.push(entry)?;
        if let Err(error) = self.places.set(alloc, name, place) {
            self.entries.pop();
            return Err(error);
        }
        Ok(())
    }
}
