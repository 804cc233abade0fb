//! How large units are, by the largest part of their libraries.
#![tactic(auto)]

mod laws;

pub use laws::unit_size_laws;
