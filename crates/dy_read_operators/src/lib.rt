//! Reads operands and operators as one tree, and arguments.
#![tactic(auto)]

pub mod lists;
pub mod passing;
pub mod state;
