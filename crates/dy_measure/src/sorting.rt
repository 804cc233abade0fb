//! The methods of one generic function, sorted several times.

use crate::failure::Failure;
use crate::rows::{class, class_row, program};
use dy_base::{ClassOrder, GenericId, Items, Ref};
use dy_order::sorted;
use dy_term::{ClassRow, DyType, Member, MethodCode, MethodRow, Params, Program, Results, Shape1};
use std::alloc::{AllocError, Global};

/// The most methods that a generic function may have.
const METHOD_LIMIT: u32 = 512;

fn generic() -> GenericId {
    GenericId(Ref { library: 0, row: 0 })
}

/// A class below all those before it.
fn lowest_class(alloc: Global, row: u32) -> Result<ClassRow, AllocError> {
    let mut order = Vec::new(alloc);
    for above in (0..=row).rev() {
        order.push(class(above))?;
    }
    class_row(alloc, Vec::new(alloc), ClassOrder::from_vec(alloc, order)?)
}

/// A method on a class.
fn method_row(alloc: Global, row: u32) -> Result<MethodRow, AllocError> {
    let mut members = Vec::new(alloc);
    members.push(Member::Class(class(row)))?;
    let mut required = Vec::new(alloc);
    required.push(DyType {
        members: Items::from_vec(members),
    })?;
    Ok(MethodRow {
        generic: generic(),
        params: Params {
            required: Items::from_vec(required),
            rest: false,
            keys: None,
            all_keys: false,
        },
        results: Results {
            required: Items::new(alloc),
            rest: None,
        },
        code: MethodCode::Builtin(0),
    })
}

/// So many classes, each below those before it, and a method on each, the least specific first.
fn methods_program(alloc: Global, count: u32) -> Result<Program, AllocError> {
    let mut classes = Vec::new(alloc);
    let mut methods = Vec::new(alloc);
    for row in 0..count {
        classes.push(lowest_class(alloc, row)?)?;
        methods.push(method_row(alloc, row)?)?;
    }
    program(alloc, classes, methods)
}

/// How many methods and how many times a text says, as `8x1`.
fn read_counts(text: &str) -> Result<(u32, u32), Failure> {
    let Some((count, times)) = text.split_once('x') else {
        return Err(Failure::Words);
    };
    match (count.parse::<u32>(), times.parse::<u32>()) {
        (Ok(count), Ok(times)) if count <= METHOD_LIMIT => Ok((count, times)),
        _ => Err(Failure::Words),
    }
}

/// How many methods are sorted in the end, where a text says how many and how often.
pub(crate) fn sort(alloc: Global, text: &str) -> Result<usize, Failure> {
    let (count, times) = read_counts(text)?;
    let program = methods_program(alloc, count)?;
    let args = [Shape1 {
        class: class(count.saturating_sub(1)),
        single: None,
    }];
    let mut length = 0;
    for _ in 0..times {
        length = sorted(alloc, &program, generic(), args.as_slice())?
            .first
            .len();
    }
    Ok(length)
}
