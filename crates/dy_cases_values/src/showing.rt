//! What a case shows.

use crate::cases::write_case;
use std::alloc::{AllocError, Global};

/// What comes of values that are printed or given to an operation. The one error is want of memory.
pub fn show(alloc: Global, text: &str) -> Result<String, AllocError> {
    let mut printed = Vec::new(alloc);
    write_case(alloc, text, &mut printed)?;
    let mut shown = String::new(alloc);
    for byte in &printed {
        match *byte {
            b'\n' => shown.push_str("\\n")?,
            byte => shown.push(char::from(byte))?,
        }
    }
    Ok(shown)
}
