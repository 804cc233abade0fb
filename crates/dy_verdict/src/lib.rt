//! The source files of a library: its first fault, or what it is.
#![tactic(auto)]

mod faults;
mod forms;
mod groups;
mod library;
mod limit;
mod pieces;
mod verdict;

pub use library::ReadLibrary;
pub use verdict::read_sources;
