//! What a case shows.

ghost use Rattle.std.specs.Prelude.{◌<◌, ◌^◌, length};

use crate::runs::shown_run;
use dy_base::Refusal;
use dy_cases_programs::program_of;
use std::alloc::{AllocError, Global};

/// What a program prints, how it ends, and with how many units. The one error is want of memory.
pub fn show(alloc: Global, text: &str) -> Result<String, AllocError>
    requires { length text.now < 2 ^ 31 }
{
    match program_of(alloc, text) {
        Ok(program) => shown_run(alloc, &program),
        Err(Refusal::Fault(_)) => String::from_str(alloc, "refused"),
        Err(Refusal::Memory) => Err(AllocError),
    }
}
