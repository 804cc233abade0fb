//! The libraries of a command, and those of its program.
#![tactic(auto)]

mod libraries;
mod program;

pub use libraries::{Libraries, built_in_libraries};
pub use program::libraries_of;
