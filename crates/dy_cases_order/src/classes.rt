//! Classes by letters: `a`, `b` and `m` are the first three of the second library, `c` the first of
//! the third, `i` is `<integer>`, and `o` `<object>`.

use crate::rows::{INTEGER, OBJECT, class, class_row, library, program};
use dy_base::{ClassId, Items};
use dy_term::{ClassRow, MethodRow, Program};
use std::alloc::{AllocError, Global};

pub(crate) fn class_of(letter: u8) -> ClassId {
    match letter {
        b'a' => class(1, 0),
        b'b' => class(1, 1),
        b'm' => class(1, 2),
        b'c' => class(2, 0),
        b'i' => INTEGER,
        _ => OBJECT,
    }
}

fn row_of(alloc: Global, letters: &str) -> Result<ClassRow, AllocError> {
    let mut order = Vec::new(alloc);
    for letter in letters.bytes() {
        order.push(class_of(letter))?;
    }
    class_row(alloc, &order)
}

/// A program whose second library has methods and classes with these orders, in the order of their
/// letters, and whose third one has the class `c`, if it is there.
pub(crate) fn libraries_of(
    alloc: Global,
    orders: &str,
    methods: Items<MethodRow>,
) -> Result<Program, AllocError> {
    let (mut own, mut later) = (Items::new(alloc), Items::new(alloc));
    for order in orders.split(' ') {
        match order.bytes().next() {
            Some(b'c') => later.push(row_of(alloc, order)?)?,
            Some(b'-') | None => {}
            Some(_) => own.push(row_of(alloc, order)?)?,
        }
    }
    let mut program = program(alloc, library(alloc, own, methods)?)?;
    let third = library(alloc, later, Items::new(alloc))?;
    program.libraries.push(third)?;
    Ok(program)
}
