//! Units one by one, and the program of all of them.

ghost use Rattle.std.specs.Prelude.{◌≡◌, IfOk, map};
ghost use Rattle.dy_meaning.specs.Numbers.{greatest};
ghost use Rattle.dy_lowered.specs.Linking.{linked, linked_code, linked_top};
ghost use Rattle.dy_join.specs.Numbering.{joined, joined_row, place_by, placed};
ghost use Rattle.dy_join.specs.Programs.{joined_program};

use crate::places::{Names, Places};
use crate::references::{link_bounds, link_names};
use crate::rows::link_row;
use crate::types::{link_lists, link_results, link_types};
use dy_base::Items;
use dy_code::{Linked, TopCode, Unit, UnitCode};
use dy_term::{LibraryRow, Program};
use std::alloc::{AllocError, Global};

fn link_top(alloc: Global, places: &Places, top: TopCode) -> Result<TopCode, AllocError>
    ensures { IfOk result (λ linked. linked ≡ linked_top (placed places.now) top) }
{
    match top {
        TopCode::Init(names, body) => {
            let names = link_names(alloc, places, names)?;
            Ok(TopCode::Init(names, body))
        }
        TopCode::Run(body) => Ok(TopCode::Run(body)),
    }
}

/// Forms that run.
fn link_tops(
    alloc: Global,
    places: &Places,
    tops: Items<TopCode>,
) -> Result<Items<TopCode>, AllocError>
    ensures { IfOk result (λ linked. linked ≡ map (linked_top (placed places.now)) tops) }
{
    let mut linked = Items::new(alloc);
    for top in tops.into_vec() {
        linked.push(link_top(alloc, places, top)?)?;
    }
    Ok(linked)
}

fn link_code(alloc: Global, places: &Places, code: UnitCode) -> Result<UnitCode, AllocError>
    ensures { IfOk result (λ linked. linked ≡ linked_code (placed places.now) code) }
{
    Ok(UnitCode {
        constants: code.constants,
        names: link_names(alloc, places, code.names)?,
        bound: link_bounds(alloc, places, code.bound)?,
        lists: link_lists(alloc, places, code.lists)?,
        types: link_types(alloc, places, code.types)?,
        results: link_results(alloc, places, code.results)?,
        bodies: code.bodies,
        starts: code.starts,
        tops: link_tops(alloc, places, code.tops)?,
        stretch: code.stretch,
    })
}

/// The rows and the code of a unit, where each library of its view is at its place in the program.
fn link_unit(alloc: Global, names: &Names, unit: Unit) -> Result<(LibraryRow, UnitCode), AllocError>
    ensures rows { IfOk result (λ linked. linked.0 ≡ joined_row (place_by names.now) unit) }
    ensures code { IfOk result (λ linked. linked.1 ≡ joined (place_by names.now) unit) }
{
    let places = Places::of(alloc, names, &unit)?;
    let row = link_row(alloc, &places, unit.row)?;
    let code = link_code(alloc, &places, unit.code)?;
    Ok((row, code))
}

/// The rows and the code of each unit.
fn link_units(
    alloc: Global,
    names: &Names,
    units: Vec<Unit>,
) -> Result<(Items<LibraryRow>, Items<UnitCode>), AllocError>
    ensures rows { IfOk result (λ linked. linked.0
        ≡ map (joined_row (place_by names.now)) units.items) }
    ensures code { IfOk result (λ linked. linked.1
        ≡ map (joined (place_by names.now)) units.items) }
{
    let mut rows = Items::new(alloc);
    let mut codes = Items::new(alloc);
    for unit in units {
        let (row, code) = link_unit(alloc, names, unit)?;
        rows.push(row)?;
        codes.push(code)?;
    }
    Ok((rows, codes))
}

/// The longest stretch of units.
fn longest(units: &[Unit]) -> u64
    ensures { result ≡ greatest (map (λ unit. unit.code.stretch) units.now) }
{
    let mut most = 0;
    for unit in units {
        if most < unit.code.stretch {
            most = unit.code.stretch;
        }
    }
    most
}

/// The program of units, in load order: their rows and their code. Both are moved, and references
/// to rows of libraries are numbered anew. The one error is want of memory.
pub fn join(alloc: Global, units: Vec<Unit>) -> Result<Linked, AllocError>
    ensures { IfOk result (λ joined. joined ≡ linked (joined_program units.items) units.items) }
{
    let names = Names::of(alloc, units.as_slice())?;
    let stretch = longest(units.as_slice());
    let (libraries, code) = link_units(alloc, &names, units)?;
    Ok(Linked {
        program: Program { libraries },
        code,
        stretch,
    })
}
