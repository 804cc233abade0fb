//! What a case shows.

use crate::drawn::compare_drawn;
use crate::fitting::{write_congruence, write_domain, write_duplicates, write_implicit};
use crate::orders::write_order;
use std::alloc::{AllocError, Global};

/// What a table of these shows of a case. The one error is want of memory.
pub fn show(alloc: Global, table: &str, text: &str) -> Result<String, AllocError> {
    let mut shown = String::new(alloc);
    match table {
        "congruence" => write_congruence(alloc, text, &mut shown)?,
        "domains" => write_domain(alloc, text, &mut shown)?,
        "duplicates" => write_duplicates(alloc, text, &mut shown)?,
        "implicit" => write_implicit(alloc, text, &mut shown)?,
        "drawn" => compare_drawn(alloc, text, &mut shown)?,
        _ => write_order(alloc, text, &mut shown)?,
    }
    Ok(shown)
}
