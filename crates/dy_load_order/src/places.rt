//! Libraries by their places in an order.

ghost use Rattle.std.specs.Prelude.{◌≡◌, ◌≤◌, ◌^◌, length, slice_get, EachIndex, IfOk};
ghost use Rattle.dy_load_order.specs.LoadOrder.{place_in};

use dy_base::Items;
use std::alloc::{AllocError, Global};

/// For each of the numbers below `count` its place in an order of libraries, counted from 0, and
/// `None` where it is not there (own). So a library that is numbered in one view is renumbered into
/// another. Where a number stands twice, the first place counts; numbers from `count` on are passed
/// over. The only error is want of memory. The time grows with `count` and the length of the order.
pub fn places_in(
    alloc: Global,
    order: &[u32],
    count: usize,
) -> Result<Items<Option<u32>>, AllocError>
    requires { length order.now ≤ 2 ^ 32 }
    ensures count { IfOk result (λ places. length places ≡ count) }
    ensures places { IfOk result (λ places. EachIndex places (λ library.
        slice_get places library ≡ Some (place_in order.now library))) }
{
    let mut places = vec![in alloc; None; count]?;
    for (place, library) in order.iter().enumerate() {
        let library = *library as usize;
        if library < count && places[library].is_none() {
            places[library] = Some(place as u32);
        }
    }
    Ok(Items::from_vec(places))
}
