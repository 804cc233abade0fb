//! Texts as programs.

ghost use Rattle.std.specs.Prelude.{◌<◌, ◌^◌, length};

use dy_assembly::{own_library, program_with};
use dy_base::Refusal;
use dy_cases_drafts::drafts_of;
use dy_term::Program;
use std::alloc::Global;

/// The program of the forms of a text: the libraries `dylan` and `io`, and its own behind them.
pub fn program_of(alloc: Global, text: &str) -> Result<Program, Refusal>
    requires { length text.now < 2 ^ 31 }
{
    let forms = drafts_of(alloc, text)?;
    let library = own_library(alloc, b"cases", &forms)?;
    Ok(program_with(alloc, library)?)
}
