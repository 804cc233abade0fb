//! Laws of resolution. The functions do nothing: their contracts are the laws.
#![tactic(auto)]

mod laws;

pub use laws::numbering_law;
