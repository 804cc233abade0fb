//! Runs as texts.

use dy_values::RunEnd;
use std::alloc::AllocError;

/// Adds bytes in quotes, in one line.
fn add_quoted(text: &mut String, bytes: &[u8]) -> Result<(), AllocError> {
    text.push_str(" \"")?;
    for byte in bytes {
        if *byte == b'\n' {
            text.push_str("\\n")?;
        } else {
            text.push(char::from(*byte))?;
        }
    }
    text.push_str("\"")
}

/// Adds how a run ends.
fn add_end(text: &mut String, end: &RunEnd) -> Result<(), AllocError> {
    match end {
        RunEnd::Finished => text.push_str(" finished"),
        RunEnd::Signalled(line) => {
            text.push(' ')?;
            for byte in line.bytes() {
                text.push(char::from(*byte))?;
            }
            Ok(())
        }
        RunEnd::OutOfFuel => text.push_str(" out of fuel"),
        RunEnd::WriteFault => text.push_str(" write fault"),
        RunEnd::NoMemory => text.push_str(" no memory"),
    }
}

/// Adds a number of units, what a run with them prints, and how it ends.
pub fn add_run(
    text: &mut String,
    fuel: u64,
    printed: &[u8],
    end: &RunEnd,
) -> Result<(), AllocError> {
    write!(text, "{fuel}").map_err(|_| AllocError)?;
    add_quoted(text, printed)?;
    add_end(text, end)
}
