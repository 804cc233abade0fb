//! Which nodes of a graph stand on a ring, and an order in which each node stands behind what it
//! uses.
#![tactic(auto)]

mod ring;
#[cfg(test)]
mod tests;

pub use ring::{Rings, find_rings};
