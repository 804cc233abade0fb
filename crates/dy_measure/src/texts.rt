//! Texts with directives, each of which prints the least integer.

use crate::failure::Failure;
use dy_base::{Fuel, Items};
use dy_prims::{dylan, io as io_library};
use dy_printing::format_text;
use dy_term::Program;
use dy_values::{Formatted, Store, Value, Variant, make_string};
use std::alloc::{AllocError, Global};

/// More units than a file can cost.
const UNITS: u64 = 100_000_000;

fn program(alloc: Global) -> Result<Program, AllocError> {
    let mut libraries = Items::new(alloc);
    libraries.push(dylan(alloc)?)?;
    libraries.push(io_library(alloc)?)?;
    Ok(Program { libraries })
}

/// An argument for each `%` of a text.
fn arguments(alloc: Global, text: &[u8]) -> Result<Vec<Value>, AllocError> {
    let mut arguments = Vec::new(alloc);
    for byte in text {
        if *byte == b'%' {
            arguments.push(Value::of(Variant::Int(i64::MIN)))?;
        }
    }
    Ok(arguments)
}

/// What is printed of a text.
pub(crate) fn formatted(alloc: Global, text: &[u8]) -> Result<Vec<u8>, Failure> {
    let program = program(alloc)?;
    let mut store = Store::new(alloc);
    let mut fuel = Fuel { left: UNITS };
    let arguments = arguments(alloc, text)?;
    let Some(text) = make_string(alloc, text, &mut store, &mut fuel)? else {
        return Err(Failure::OutOfFuel);
    };
    let mut printed = Vec::new(alloc);
    let formatted = format_text(
        alloc,
        &program,
        &store,
        &text,
        &arguments,
        &mut fuel,
        &mut printed,
    )?;
    match formatted {
        Formatted::Done => Ok(printed),
        Formatted::Signal(_) => Err(Failure::Signal),
        Formatted::OutOfFuel => Err(Failure::OutOfFuel),
    }
}
