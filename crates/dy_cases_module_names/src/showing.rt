//! What a case shows.

use crate::answers::write_case;
use crate::files::Case;
use std::alloc::{AllocError, Global};

/// The first fault of a library, or what its modules mean by names. The one error is want of
/// memory.
pub fn show(alloc: Global, text: &str) -> Result<String, AllocError> {
    let mut shown = String::new(alloc);
    write_case(alloc, &Case::of(alloc, text)?, &mut shown)?;
    Ok(shown)
}
