//! The lists of a unit, and the instructions of its bodies.
#![tactic(auto)]

mod copies;
mod lists;
mod writing;

pub use lists::Lists;
pub use writing::address;
