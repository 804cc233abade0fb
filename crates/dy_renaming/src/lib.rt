//! The law of renaming. The function does nothing: its contract is the law.
#![tactic(auto)]

mod laws;

pub use laws::renaming_law;
