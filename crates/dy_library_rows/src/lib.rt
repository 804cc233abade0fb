//! The forms of a library as rows, with the names that a program has at this stage.
#![tactic(auto)]

mod exports;
mod library;
mod names;
mod types;

pub use library::{read_library, resolve_library};
pub use names::{Names, RowCounts, names_of};
