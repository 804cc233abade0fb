//! Which libraries have code as a whole.
#![tactic(auto)]

mod rows;
mod terms;

pub use rows::library_has_code;
