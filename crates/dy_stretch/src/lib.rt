//! How many instructions of a body at most run one after the other without a `Tick`.
#![tactic(auto)]

mod reached;
mod steps;
#[cfg(test)]
mod tests;
mod walks;

pub use walks::stretch;
