//! Texts that are sent behind one another.
#![tactic(auto)]

mod sending;

pub use sending::put_all;
