//! Rows as texts, for tests: locals by their numbers, and what is defined outside by its kind.
#![tactic(auto)]

mod print;
mod rows;
mod written;

pub use print::{write_lambda, write_term};
pub use rows::write_row;
pub use written::Written;
