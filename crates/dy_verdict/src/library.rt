//! A library that was read.

ghost use Rattle.std.specs.Prelude.{◌≡◌, ◌<◌, ◌≤◌, ◌^◌, [], None, length, slice_index_or, IfOk};
ghost use Rattle.std.specs.Prelude.{unwrap_or};
ghost use Rattle.dy_base.specs.Folding.{folded};
ghost use Rattle.dy_module_tables.specs.Graphs.{AreFolded, AllExported};
ghost use Rattle.dy_views.specs.Views.{places_by};
ghost use Rattle.dy_verdict.specs.Libraries as spec;
ghost use Rattle.dy_verdict.specs.Libraries.{AreReady};

use dy_assembly::Heading;
use dy_base::{Exports, Items, Name, fold};
use dy_library_modules::LibraryModules;
use dy_load_order::places_in;
use dy_module_tables::ModuleTable;
use dy_term::LibraryRow;
use dy_views::Compiled;
use std::alloc::{AllocError, Global};

/// A library without a fault.
#[derive(Drop)]
pub struct ReadLibrary {
    /// Its rows. References to rows name libraries by their places in its view.
    pub row: LibraryRow,
    /// What it exports. References to rows name libraries by the same places.
    pub exports: Exports,
    /// The numbers of the libraries that its use clauses name, in their order, each once.
    pub uses: Items<u32>,
    /// Its view, in load order: the numbers of the libraries that it uses, directly or not, and its
    /// own last, which comes behind those of all that were compiled before.
    pub order: Items<u32>,
}

/// The place of a library, and 0 where it has none.
fn place_of(places: &[Option<u32>], library: u32) -> u32
    ensures { result ≡ unwrap_or (slice_index_or places.now library None) 0 }
{
    match places.get(library as usize) {
        Some(Some(place)) => *place,
        _ => 0,
    }
}

/// The places of these libraries.
fn places_of(
    alloc: Global,
    places: &[Option<u32>],
    libraries: &[u32],
) -> Result<Items<u32>, AllocError>
    ensures { IfOk result (λ found. found
        ≡ places_by (λ library. slice_index_or places.now library None) libraries.now) }
{
    let mut found = Items::new(alloc);
    for library in libraries {
        found.push(place_of(places, *library))?;
    }
    Ok(found)
}

/// What the library of this name is beside its rows, where its modules are these.
pub(crate) fn heading_of(
    alloc: Global,
    library: &Name,
    compiled: &Compiled,
    modules: &LibraryModules,
) -> Result<Heading, AllocError>
    requires { AreReady compiled.now modules.now }
    ensures { IfOk result (λ heading. heading
        ≡ spec.heading_of library.now modules.now.order modules.now.uses) }
{
    let order = modules.order.as_slice();
    let places = places_in(alloc, order, compiled.exports.as_slice().len())?;
    Ok(Heading {
        number: (order.len() - 1) as u32,
        name: fold(alloc, library.bytes())?,
        uses: places_of(alloc, places.as_slice(), modules.uses.as_slice())?,
    })
}

/// What the library of this name exports, where this is the table of its modules.
pub(crate) fn exports_of(
    alloc: Global,
    library: &Name,
    table: &ModuleTable,
) -> Result<Exports, AllocError>
    requires { AreFolded table.now.modules }
    ensures name { IfOk result (λ exports. exports.library ≡ folded library.now) }
    ensures modules { IfOk result (λ exports.
        AllExported table.now.modules table.now.defined table.now.shown exports.modules) }
    ensures seen { IfOk result (λ exports. exports.seen ≡ []) }
{
    Ok(Exports {
        library: fold(alloc, library.bytes())?,
        modules: table.exports(alloc)?,
        seen: Items::new(alloc),
    })
}
