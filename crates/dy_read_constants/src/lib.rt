//! Reads lists and vectors of literals.
#![tactic(auto)]

pub mod constant_front;
pub mod constant_nodes;
pub mod constant_shape;
pub mod constants;
pub mod list_inside;
pub mod list_next;
