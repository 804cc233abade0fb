//! Faults, before it is known which is the first.

ghost use Rattle.std.specs.Prelude.{◌≡◌, ◌++◌, ◌∷◌, [], IfOk, OnOk};
ghost use Rattle.dy_library_form.specs.Told as spec;
ghost use Rattle.dy_library_form.specs.Told.{found};

use dy_base::{Items, Kind, Place, Text};
use std::alloc::{AllocError, Global};
use std::cmp::Ordering;

/// A fault with its place and the name that is shown.
#[derive(Debug, Drop)]
pub struct Found {
    pub kind: Kind,
    pub place: Place,
    pub name: Text,
}

/// Adds a fault.
pub fn tell(
    alloc: Global,
    kind: Kind,
    place: Place,
    name: &[u8],
    list: &mut Items<Found>,
) -> Result<(), AllocError>
    ensures { OnOk result (list.new ≡ list.old ++ found kind place name.now ∷ []) }
{
    let name = Text::of(alloc, name)?;
    list.push(Found { kind, place, name })?;
    Ok(())
}

fn compare_places(a: Place, b: Place) -> Ordering
    ensures { result ≡ spec.place_cmp a b }
{
    a.file.cmp(&b.file).then(a.offset.cmp(&b.offset))
}

/// The order in which faults are told: by the file, then by the byte, then by the number of the
/// kind, then by the bytes of the name (own).
fn compare(a: &Found, b: &Found) -> Ordering
    ensures { result ≡ spec.found_cmp a.now b.now }
{
    compare_places(a.place, b.place)
        .then(a.kind.code().cmp(&b.kind.code()))
        .then(a.name.bytes().cmp(b.name.bytes()))
}

/// Whether a fault is told before another.
fn is_before(a: &Found, b: &Found) -> bool
    ensures { result ≡ spec.is_before a.now b.now }
{
    compare(a, b).is_lt()
}

fn better(first: Found, other: Option<Found>) -> Found
    ensures { result ≡ spec.better first other }
{
    match other {
        Some(other) => {
            if is_before(&other, &first) {
                other
            } else {
                first
            }
        }
        None => first,
    }
}

/// The fault that is told of these: the one that no other is told before.
pub fn first(list: Items<Found>) -> Option<Found>
    ensures { result ≡ spec.first list }
{
    let mut list = list.into_vec();
    let mut best = None;
    while let Some(found) = list.pop() {
        best = Some(better(found, best));
    }
    best
}
