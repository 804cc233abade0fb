//! The sources of a command's libraries: their LID files and the files that these name, read and
//! judged one library behind the other.
#![tactic(auto)]

mod laws;
mod lids;
mod names;
mod point;
mod refused;
mod source;

pub use laws::library_laws;
pub use lids::read_libraries;
pub use refused::{Position, Refused, refusal_line, unknown_main};
pub use source::{Halt, read_library};
