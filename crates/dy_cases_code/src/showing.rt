//! What a case shows.

ghost use Rattle.std.specs.Prelude.{◌<◌, ◌^◌, length};

use crate::bodies::shown_library;
use dy_base::Refusal;
use dy_cases_programs::program_of;
use std::alloc::{AllocError, Global};

/// The code of the bodies of a program. The one error is want of memory.
pub fn show(alloc: Global, text: &str) -> Result<String, AllocError>
    requires { length text.now < 2 ^ 31 }
{
    match program_of(alloc, text) {
        Ok(program) => shown_library(alloc, &program),
        Err(Refusal::Fault(_)) => String::from_str(alloc, "refused"),
        Err(Refusal::Memory) => Err(AllocError),
    }
}
