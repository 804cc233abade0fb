//! The rows of a library without their terms.
#![tactic(auto)]

mod rows;

pub use rows::bare_row;
