//! What a case shows.

ghost use Rattle.std.specs.Prelude.{◌<◌, ◌^◌, length};

use crate::reading::form_of;
use crate::views::View;
use dy_base::Refusal;
use std::alloc::{AllocError, Global};

/// What a table shows of the form that a case holds, or of its first fault. The one error is want of memory.
pub fn show(alloc: Global, table: &str, text: &str) -> Result<String, AllocError>
    requires { length text.now < 2 ^ 31 }
{
    let view = View::of(table);
    match form_of(alloc, text) {
        Ok(form) => view.form(alloc, &form),
        Err(Refusal::Fault(fault)) => view.fault(alloc, &fault),
        Err(Refusal::Memory) => Err(AllocError),
    }
}
