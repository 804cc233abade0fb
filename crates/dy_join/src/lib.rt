//! Units joined in memory to a program that can run.
#![tactic(auto)]

mod places;
mod references;
mod rows;
mod types;
mod units;

pub use units::join;
