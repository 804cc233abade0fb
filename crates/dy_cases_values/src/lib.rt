//! Cases of values that are printed, and of built-in operations.
//!
//! A case is a word for what is done, the units, and values, with bars between (`README.md`).
#![tactic(auto)]

mod cases;
mod showing;
mod values;

pub use showing::show;
