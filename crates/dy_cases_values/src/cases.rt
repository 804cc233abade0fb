//! Cases: what is done with values, and what comes of it.

use crate::values::values;
use dy_base::{Fuel, Items};
use dy_prims::{apply, dylan, io, operation_at};
use dy_printing::{format_text, print, unhandled_line};
use dy_term::Program;
use dy_values::{
    Answer, ErrorRow, Formatted, Store, Value, ambiguous_call, built_in, first, is_false, no_match,
    no_method, not_a_function, read_too_early, wrong_class,
};
use itoa::Buffer;
use std::alloc::{AllocError, Global};

/// More units than the values of a case cost.
const UNITS: u64 = 1_000;

fn program(alloc: Global) -> Result<Program, AllocError> {
    let mut libraries = Items::new(alloc);
    libraries.push(dylan(alloc)?)?;
    libraries.push(io(alloc)?)?;
    Ok(Program { libraries })
}

/// A unit was wanted, and none was left.
fn write_spent(out: &mut Vec<u8>) -> Result<(), AllocError> {
    out.extend_from_slice(b"out of units ")
}

fn write_error(
    alloc: Global,
    program: &Program,
    store: &Store,
    error: &ErrorRow,
    out: &mut Vec<u8>,
) -> Result<(), AllocError> {
    let line = unhandled_line(alloc, program, store, error)?;
    out.extend_from_slice(line.bytes())?;
    out.extend_from_slice(b" ")
}

/// Values one after another, until the units end.
fn write_values(
    alloc: Global,
    program: &Program,
    store: &Store,
    escaped: bool,
    values: &[Value],
    fuel: &mut Fuel,
    out: &mut Vec<u8>,
) -> Result<(), AllocError> {
    for value in values {
        if !print(alloc, program, store, value, escaped, fuel, out)? {
            return write_spent(out);
        }
        out.push(b' ')?;
    }
    Ok(())
}

/// What values are formatted as, the first of which is the text with directives.
fn write_formatted(
    alloc: Global,
    program: &Program,
    store: &Store,
    values: &[Value],
    fuel: &mut Fuel,
    out: &mut Vec<u8>,
) -> Result<(), AllocError> {
    let Some((text, arguments)) = values.split_first() else {
        return Ok(());
    };
    match format_text(alloc, program, store, text, arguments, fuel, out)? {
        Formatted::Done => out.extend_from_slice(b" "),
        Formatted::Signal(error) => write_error(alloc, program, store, &error, out),
        Formatted::OutOfFuel => write_spent(out),
    }
}

fn write_answer(
    alloc: Global,
    program: &Program,
    store: &Store,
    answer: &Answer,
    out: &mut Vec<u8>,
) -> Result<(), AllocError> {
    match answer {
        Answer::Values(given) => {
            let mut fuel = Fuel { left: UNITS };
            write_values(
                alloc,
                program,
                store,
                true,
                given.as_slice(),
                &mut fuel,
                out,
            )
        }
        Answer::Signal(error) => write_error(alloc, program, store, error, out),
        Answer::OutOfFuel => write_spent(out),
    }
}

/// What the operation of a number answers.
fn write_applied(
    alloc: Global,
    program: &Program,
    operation: u16,
    values: &[Value],
    store: &mut Store,
    fuel: &mut Fuel,
    out: &mut Vec<u8>,
) -> Result<(), AllocError> {
    if operation_at(operation).is_none() {
        return out.extend_from_slice(b"no operation ");
    }
    let answer = apply(alloc, program, operation, values, store, fuel)?;
    write_answer(alloc, program, store, &answer, out)
}

/// An error that no operation signals, by its name.
fn named_error(alloc: Global, name: &str) -> Result<Option<ErrorRow>, AllocError> {
    match name {
        "no method" => Ok(Some(no_method(alloc, b"+")?)),
        "ambiguous" => Ok(Some(ambiguous_call(alloc, b"+")?)),
        "read too early" => Ok(Some(read_too_early(alloc, b"*n*")?)),
        "no function" => Ok(Some(not_a_function(alloc)?)),
        "no match" => Ok(Some(no_match(alloc)?)),
        _ => Ok(None),
    }
}

fn write_named(
    alloc: Global,
    program: &Program,
    name: &str,
    store: &Store,
    out: &mut Vec<u8>,
) -> Result<(), AllocError> {
    match named_error(alloc, name)? {
        Some(error) => write_error(alloc, program, store, &error, out),
        None => out.extend_from_slice(b"no case "),
    }
}

/// Whether a test succeeds with the first of the values.
fn write_test(values: &[Value], out: &mut Vec<u8>) -> Result<(), AllocError> {
    if is_false(first(values)) {
        out.extend_from_slice(b"fails ")
    } else {
        out.extend_from_slice(b"succeeds ")
    }
}

/// How many bytes the line of a value has that is no integer, and how it ends.
fn write_line_end(
    alloc: Global,
    program: &Program,
    store: &Store,
    value: Value,
    out: &mut Vec<u8>,
) -> Result<(), AllocError> {
    let error = wrong_class(alloc, value, built_in(9))?;
    let line = unhandled_line(alloc, program, store, &error)?;
    let bytes = line.bytes();
    out.extend_from_slice(Buffer::new().format(bytes.len()).as_bytes())?;
    out.extend_from_slice(b" bytes, the last ")?;
    out.extend_from_slice(&bytes[bytes.len().saturating_sub(24)..])?;
    out.extend_from_slice(b" ")
}

/// What comes of values, by the word for what is done: `print`, `escaped`, `format`, `test`,
/// `line end`, the number of an operation, or the name of an error.
fn write_outcome(
    alloc: Global,
    program: &Program,
    what: &str,
    values: &[Value],
    store: &mut Store,
    fuel: &mut Fuel,
    out: &mut Vec<u8>,
) -> Result<(), AllocError> {
    match what {
        "print" => write_values(alloc, program, store, false, values, fuel, out),
        "escaped" => write_values(alloc, program, store, true, values, fuel, out),
        "format" => write_formatted(alloc, program, store, values, fuel, out),
        "test" => write_test(values, out),
        "line end" => write_line_end(alloc, program, store, first(values), out),
        _ => match what.parse::<u16>() {
            Ok(number) => write_applied(alloc, program, number, values, store, fuel, out),
            Err(_) => write_named(alloc, program, what, store, out),
        },
    }
}

fn write_left(units: u64, out: &mut Vec<u8>) -> Result<(), AllocError> {
    out.extend_from_slice(b"(")?;
    out.extend_from_slice(Buffer::new().format(units).as_bytes())?;
    out.extend_from_slice(b" left)")
}

/// What is done, with these units, with the values of words. For `literals` the values are made
/// with the units.
fn write_result(
    alloc: Global,
    program: &Program,
    what: &str,
    units: u64,
    words: &str,
    store: &mut Store,
    out: &mut Vec<u8>,
) -> Result<(), AllocError> {
    let mut fuel = Fuel { left: units };
    let mut others = Fuel { left: UNITS };
    if what == "literals" {
        let values = values(alloc, words, store, &mut fuel)?;
        write_values(alloc, program, store, true, &values, &mut others, out)?;
    } else {
        let values = values(alloc, words, store, &mut others)?;
        write_outcome(alloc, program, what, &values, store, &mut fuel, out)?;
    }
    write_left(fuel.left, out)
}

/// What comes of a case, or that it is none.
pub(crate) fn write_case(alloc: Global, line: &str, out: &mut Vec<u8>) -> Result<(), AllocError> {
    let program = program(alloc)?;
    let mut store = Store::new(alloc);
    let (what, behind) = line.split_once('|').unwrap_or((line, ""));
    let (units, words) = behind.split_once('|').unwrap_or((behind, ""));
    match units.parse::<u64>() {
        Ok(units) => write_result(alloc, &program, what, units, words, &mut store, out),
        Err(_) => out.extend_from_slice(b"no case"),
    }
}
