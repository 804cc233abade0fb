//! From a library to its unit.
#![tactic(auto)]

mod refusal;
mod unit;

pub use refusal::Refusal;
pub use unit::{lower, lower_code};
