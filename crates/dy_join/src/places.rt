//! Where the libraries of a view stand in a program.

ghost use Rattle.std.specs.Prelude.{◌≡◌, ◌++◌, ◌∷◌, [], ◌+◌, ℕ, List, IfOk, OnOk, length, map};
ghost use Rattle.dy_values.specs.Stores.{name_at, place_in};
ghost use Rattle.dy_lowered.specs.Linking.{view_of};
ghost use Rattle.dy_join.specs.Numbering.{HoldsPlaces, place_by, placed};

use dy_base::{Items, NameTable};
use dy_code::Unit;
use std::alloc::{AllocError, Global};

/// The places of the units of a program by their names.
#[derive(Drop)]
pub(crate) struct Names {
    places: NameTable<u32>,
    /// How many units there are, which is the place of every other name.
    count: u32,
}

/// The places in a program of the libraries of a view.
#[derive(Drop)]
pub(crate) struct Places {
    of_view: Items<u32>,
    /// The place of what is behind the last library of the view.
    elsewhere: u32,
}

/// The next place. No memory holds so many units that their number does not fit.
fn next(place: u32) -> Result<u32, AllocError>
    ensures { IfOk result (λ next. next ≡ place + 1) }
{
    match place.checked_add(1) {
        Some(next) => Ok(next),
        None => Err(AllocError),
    }
}

/// Keeps the place of a name, if none is kept of it yet.
fn note(
    alloc: Global,
    places: &mut NameTable<u32>,
    name: &[u8],
    place: u32,
) -> Result<(), AllocError>
    ensures { OnOk result ((names : List (List ℕ)) → HoldsPlaces places.old names
        → place ≡ length names → HoldsPlaces places.new (names ++ name.now ∷ [])) }
{
    let is_there = places.get(name).is_some();
    if is_there {
        return Ok(());
    }
    places.set(alloc, name, place)?;
    Ok(())
}

impl Names {
    /// The places of units.
    pub(crate) fn of(alloc: Global, units: &[Unit]) -> Result<Names, AllocError>
        ensures { IfOk result (λ names. (name : List ℕ)
            → place_by names name ≡ place_in (map (λ unit. unit.name) units.now) name) }
    {
        let mut places = NameTable::new(alloc);
        let mut count = 0;
        for unit in units {
            note(alloc, &mut places, unit.name.bytes(), count)?;
            count = next(count)?;
        }
        Ok(Names { places, count })
    }

    /// The place of a name.
    fn place_of(&self, name: &[u8]) -> u32
        ensures { result ≡ place_by self.now name.now }
    {
        match self.places.get(name) {
            Some(place) => *place,
            None => self.count,
        }
    }
}

impl Places {
    /// The places of the libraries that a unit sees.
    pub(crate) fn of(alloc: Global, names: &Names, unit: &Unit) -> Result<Places, AllocError>
        ensures { IfOk result (λ places. (library : ℕ) → placed places library
            ≡ place_by names.now (name_at (view_of unit.now) library)) }
    {
        let mut of_view = Items::new(alloc);
        for used in unit.uses.as_slice() {
            of_view.push(names.place_of(used.0.bytes()))?;
        }
        of_view.push(names.place_of(unit.name.bytes()))?;
        Ok(Places {
            of_view,
            elsewhere: names.place_of(b"".as_slice()),
        })
    }

    /// The place in the program of the library at this place in the view.
    pub(crate) fn at(&self, library: u32) -> u32
        ensures { result ≡ placed self.now library }
    {
        match self.of_view.as_slice().get(library as usize) {
            Some(place) => *place,
            None => self.elsewhere,
        }
    }
}
