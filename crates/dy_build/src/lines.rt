//! The lines that a command prints beside those of refusals.

ghost use Rattle.std.specs.Prelude.{◌≡◌, IfOk};
ghost use Rattle.dy_build.specs.Lines.{file_fault_line, end_line, out_of_fuel_line};

use std::alloc::{AllocError, Global};

/// The line of a file that could not be read or written.
pub(crate) fn file_fault_line(alloc: Global, name: &[u8]) -> Result<Vec<u8>, AllocError>
    ensures { IfOk result (λ line. line.items ≡ file_fault_line name.now) }
{
    let mut line = Vec::from_slice(alloc, b"file fault: ")?;
    line.extend_from_slice(name)?;
    line.push(b'\n')?;
    Ok(line)
}

/// The line of a run that ended by a condition that nothing handled, of which this is told.
pub(crate) fn end_line(alloc: Global, text: &[u8]) -> Result<Vec<u8>, AllocError>
    ensures { IfOk result (λ line. line.items ≡ end_line text.now) }
{
    let mut line = Vec::from_slice(alloc, text)?;
    line.push(b'\n')?;
    Ok(line)
}

/// The line of a run that spent all its fuel.
pub(crate) fn out_of_fuel_line() -> &'static [u8]
    ensures { result.now ≡ out_of_fuel_line }
{
    b"out of fuel\n"
}
