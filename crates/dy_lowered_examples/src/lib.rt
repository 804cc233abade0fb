//! The code of two programs, worked out by hand, is what the definition gives.
#![tactic(auto)]

mod laws;

pub use laws::example_laws;
