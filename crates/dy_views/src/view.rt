//! What a library sees of others.

ghost use Rattle.std.specs.Prelude.{◌≡◌, ◌<◌, None, length, map, slice_index_or, unwrap_or};
ghost use Rattle.std.specs.Prelude.{IfOk};
ghost use Rattle.dy_views.specs.Views as spec;
ghost use Rattle.dy_views.specs.Views.{AreCompiled, AreThere};

use crate::compiled::Compiled;
use crate::linked::link_exports;
use crate::used::used_numbers;
use dy_base::{Exports, Items};
use dy_load_order::{load_order, places_in};
use dy_module_forms::Placed;
use std::alloc::{AllocError, Global};

/// What a library sees of those that were compiled before it.
#[derive(Drop)]
pub struct View {
    /// Its view, in load order: the numbers of the libraries that it uses, directly or not, and its
    /// own last, which comes behind those of all that were compiled before.
    pub order: Items<u32>,
    /// The numbers of the libraries that its use clauses name, in their order, each once.
    pub uses: Items<u32>,
    /// What those export, in the same order, by the places of this view.
    pub used: Vec<Exports>,
}

/// The place of a library, and 0 where it has none.
fn place_of(places: &[Option<u32>], library: u32) -> u32
    ensures { result ≡ unwrap_or (slice_index_or places.now library None) 0 }
{
    match places.get(library as usize) {
        Some(Some(place)) => *place,
        _ => 0,
    }
}

/// The places of these libraries.
fn places_of(
    alloc: Global,
    places: &[Option<u32>],
    libraries: &[u32],
) -> Result<Items<u32>, AllocError>
    ensures { IfOk result (λ found. found
        ≡ spec.places_by (λ library. slice_index_or places.now library None) libraries.now) }
{
    let mut found = Items::new(alloc);
    for library in libraries {
        found.push(place_of(places, *library))?;
    }
    Ok(found)
}

/// What a library exports, where libraries have these places.
fn exports_by(
    alloc: Global,
    compiled: &Compiled,
    places: &[Option<u32>],
    library: u32,
) -> Result<Exports, AllocError>
    requires compiled { AreCompiled compiled.now }
    requires there { library < length compiled.now.exports }
    ensures { IfOk result (λ exports. exports ≡ spec.exports_by
        (λ library. slice_index_or places.now library None) compiled.now library) }
{
    let library = library as usize;
    let order = compiled.orders.as_slice()[library].as_slice();
    let places = places_of(alloc, places, order)?;
    link_exports(
        alloc,
        places.as_slice(),
        &compiled.exports.as_slice()[library],
    )
}

/// What these libraries export, where libraries have these places.
fn used_exports(
    alloc: Global,
    compiled: &Compiled,
    places: &[Option<u32>],
    uses: &[u32],
) -> Result<Vec<Exports>, AllocError>
    requires compiled { AreCompiled compiled.now }
    requires there { AreThere compiled.now uses.now }
    ensures { IfOk result (λ used. used.items ≡ map (spec.exports_by
        (λ library. slice_index_or places.now library None) compiled.now) uses.now) }
{
    let mut used = Vec::new(alloc);
    for library in uses {
        used.push(exports_by(alloc, compiled, places, *library)?)?;
    }
    Ok(used)
}

/// What a library with these clauses sees (DRM 4, "Libraries"; the numbers are own). A use clause
/// that names no library that was compiled adds nothing here. The one error is want of memory. The
/// time grows with the clauses and with what the used libraries export; the libraries that were
/// compiled are gone through once for each use clause.
pub fn view_of(alloc: Global, compiled: &Compiled, clauses: &[Placed]) -> Result<View, AllocError>
    requires { AreCompiled compiled.now }
    ensures uses { IfOk result (λ view. view.uses
        ≡ spec.used_numbers compiled.now.exports clauses.now) }
    ensures there { IfOk result (λ view. AreThere compiled.now view.uses) }
    ensures order { IfOk result (λ view. view.order ≡ spec.order_of compiled.now view.uses) }
    ensures used { IfOk result (λ view. view.used.items
        ≡ map (spec.exports_in compiled.now view.order) view.uses) }
{
    let known = compiled.exports.as_slice();
    let uses = used_numbers(alloc, known, clauses)?;
    let earlier = compiled.uses.as_slice();
    let order = load_order(alloc, earlier, uses.as_slice())?;
    let places = places_in(alloc, order.as_slice(), known.len() + 1)?;
    let used = used_exports(alloc, compiled, places.as_slice(), uses.as_slice())?;
    Ok(View { order, uses, used })
}
