//! What libraries export, where libraries are at the places of another view.

ghost use Rattle.std.specs.Prelude.{◌≡◌, IfOk};
ghost use Rattle.dy_lowered.specs.Linking.{linked_name};
ghost use Rattle.dy_views.specs.Views as spec;
ghost use Rattle.dy_views.specs.Views.{new_place};

use dy_base::{BindingId, Exports, Items, Name, Ref, fold};
use std::alloc::{AllocError, Global};

/// The new place of what has this one.
fn place_at(places: &[u32], place: u32) -> u32
    ensures { result ≡ new_place places.now place }
{
    match places.get(place as usize) {
        Some(place) => *place,
        None => 0,
    }
}

fn link_name(places: &[u32], named: BindingId) -> BindingId
    ensures { result ≡ linked_name (new_place places.now) named }
{
    BindingId {
        what: named.what,
        at: Ref {
            library: place_at(places, named.at.library),
            row: named.at.row,
        },
    }
}

fn link_names(
    alloc: Global,
    places: &[u32],
    names: &[(Name, BindingId)],
) -> Result<Items<(Name, BindingId)>, AllocError>
    ensures { IfOk result (λ linked. linked ≡ spec.linked_names (new_place places.now) names.now) }
{
    let mut linked = Items::new(alloc);
    for (name, named) in names {
        linked.push((fold(alloc, name.bytes())?, link_name(places, *named)))?;
    }
    Ok(linked)
}

fn link_modules(
    alloc: Global,
    places: &[u32],
    modules: &[(Name, Items<(Name, BindingId)>)],
) -> Result<Items<(Name, Items<(Name, BindingId)>)>, AllocError>
    ensures { IfOk result (λ linked. linked
        ≡ spec.linked_modules (new_place places.now) modules.now) }
{
    let mut linked = Items::new(alloc);
    for (name, names) in modules {
        let names = link_names(alloc, places, names.as_slice())?;
        linked.push((fold(alloc, name.bytes())?, names))?;
    }
    Ok(linked)
}

/// A copy of what a library exports, where libraries are at these places.
pub(crate) fn link_exports(
    alloc: Global,
    places: &[u32],
    exports: &Exports,
) -> Result<Exports, AllocError>
    ensures { IfOk result (λ linked. linked
        ≡ spec.linked_exports (new_place places.now) exports.now) }
{
    Ok(Exports {
        library: fold(alloc, exports.library.bytes())?,
        modules: link_modules(alloc, places, exports.modules.as_slice())?,
        seen: link_modules(alloc, places, exports.seen.as_slice())?,
    })
}
