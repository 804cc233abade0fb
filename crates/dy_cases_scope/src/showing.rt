//! What a case shows.

ghost use Rattle.std.specs.Prelude.{◌<◌, ◌^◌, length};

use crate::forms::{write_fault, write_forms};
use dy_base::Refusal;
use dy_show_rows::Written;
use std::alloc::{AllocError, Global};

/// The rows of forms, or their first fault. The one error is want of memory.
pub fn show(alloc: Global, table: &str, text: &str) -> Result<String, AllocError>
    requires { length text.now < 2 ^ 31 }
{
    let mut out = Written::new(alloc);
    match write_forms(alloc, table, text, &mut out) {
        Ok(()) => {}
        Err(Refusal::Fault(fault)) => write_fault(&mut out, &fault),
        Err(Refusal::Memory) => return Err(AllocError),
    }
    out.whole()
}
