//! Libraries are lowered, and their program is joined, loaded and run.
#![tactic(auto)]

mod linking;
mod running;

pub use running::run_libraries;
