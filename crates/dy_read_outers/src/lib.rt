//! Reads what an operand will be a part of, and puts trees together.
#![tactic(auto)]

pub mod grown;
pub mod nodes;
pub mod outer;
pub mod passed;
