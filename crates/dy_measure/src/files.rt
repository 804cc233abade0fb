//! What programs read and print.

ghost use Rattle.std.specs.Prelude.{◌<◌, ◌^◌, length, IfOk};

use crate::failure::Failure;
use dy_io::{Files, Found, Sink};
use itoa::Buffer;
use std::alloc::Global;

/// The most bytes that a file may have.
const FILE_LIMIT: usize = 4_194_304;

/// The bytes of a file.
pub(crate) fn read<F: Files>(alloc: Global, files: &mut F, name: &str) -> Result<Vec<u8>, Failure>
    ensures { IfOk result (λ bytes. length bytes.items < 2 ^ 32) }
{
    let mut bytes = Vec::new(alloc);
    match files.read(alloc, name, FILE_LIMIT as u64 + 1, &mut bytes) {
        Ok(Found::Here) => {}
        _ => return Err(Failure::File),
    }
    if bytes.len() > FILE_LIMIT {
        return Err(Failure::File);
    }
    Ok(bytes)
}

/// Prints a number in a line of its own.
pub(crate) fn print<S: Sink>(out: &mut S, number: usize) -> Result<(), Failure> {
    out.put(Buffer::new().format(number).as_bytes())?;
    out.put(b"\n".as_slice())?;
    Ok(())
}
