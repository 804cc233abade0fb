//! Sorted methods of drawn programs, compared with a look at all pairs.

use crate::pairs::{Above, Pair, is_answer, is_at_or_below};
use crate::rows::{GENERIC, OBJECT, class, class_row, library, objects, on_classes, program};
use dy_base::{ClassId, Items, MethodId};
use dy_order::sorted;
use dy_term::{ClassRow, Program};
use std::alloc::{AllocError, Global};

fn drawn(seed: &mut u64, count: u64) -> u64 {
    *seed = seed
        .wrapping_mul(6_364_136_223_846_793_005)
        .wrapping_add(1_442_695_040_888_963_407);
    (*seed >> 33).checked_rem(count).unwrap_or(0)
}

fn drawn_class(seed: &mut u64) -> u32 {
    drawn(seed, 5).min(4) as u32
}

fn drawn_classes(seed: &mut u64) -> Above {
    let mut above = [[false; 4]; 4];
    for lower in 0..4usize {
        for upper in 0..lower {
            if drawn(seed, 3) == 0 {
                above[lower][upper] = true;
                for further in 0..4usize {
                    if above[upper][further] {
                        above[lower][further] = true;
                    }
                }
            }
        }
    }
    above
}

fn numbered(number: u32) -> ClassId {
    if number == 4 {
        OBJECT
    } else {
        class(1, number)
    }
}

// A class, those above it from the last to the first, and `<object>`.
fn drawn_row(alloc: Global, above: &Above, own: u32) -> Result<ClassRow, AllocError> {
    let mut order = Vec::new(alloc);
    order.push(class(1, own))?;
    for upper in [3, 2, 1, 0, 4] {
        if upper != own && is_at_or_below(above, own, upper) {
            order.push(numbered(upper))?;
        }
    }
    class_row(alloc, &order)
}

fn drawn_program(alloc: Global, above: &Above, pairs: &[Pair]) -> Result<Program, AllocError> {
    let mut classes = Items::new(alloc);
    for own in 0..4 {
        classes.push(drawn_row(alloc, above, own)?)?;
    }
    let mut methods = Items::new(alloc);
    for (first, second) in pairs {
        let types = [numbered(*first), numbered(*second)];
        methods.push(on_classes(alloc, types.as_slice())?)?;
    }
    program(alloc, library(alloc, classes, methods)?)
}

fn rows(alloc: Global, methods: &Items<MethodId>) -> Result<Vec<u32>, AllocError> {
    let mut found = Vec::new(alloc);
    for method in methods.as_slice() {
        found.push(method.0.row)?;
    }
    Ok(found)
}

fn is_sorted_right(alloc: Global, seed: &mut u64) -> Result<bool, AllocError> {
    let above = drawn_classes(seed);
    let mut methods = Vec::new(alloc);
    for _ in 0..drawn(seed, 8) {
        methods.push((drawn_class(seed), drawn_class(seed)))?;
    }
    let args = (drawn_class(seed).min(3), drawn_class(seed).min(3));
    let shapes = objects(alloc, [numbered(args.0), numbered(args.1)].as_slice())?;
    let program = drawn_program(alloc, &above, &methods)?;
    let found = sorted(alloc, &program, GENERIC, &shapes)?;
    let (first, rest) = (rows(alloc, &found.first)?, rows(alloc, &found.rest)?);
    Ok(is_answer(&above, args, &methods, &first, &rest))
}

/// Draws so many programs, and tells which of them is the first whose methods are sorted wrong.
pub(crate) fn compare_drawn(
    alloc: Global,
    text: &str,
    shown: &mut String,
) -> Result<(), AllocError> {
    let mut seed = 1;
    let count: u64 = text.parse().unwrap_or(0);
    for round in 0..count.min(10_000) {
        if !is_sorted_right(alloc, &mut seed)? {
            return write!(shown, "program {round} is sorted wrong").map_err(|_| AllocError);
        }
    }
    write!(shown, "{count} programs are sorted right").map_err(|_| AllocError)
}
