//! That items of a unit's lists which are the same are equal.
#![tactic(auto)]

mod laws;

pub use laws::sameness_laws;
