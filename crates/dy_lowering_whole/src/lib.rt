//! The central law as a whole: lowered programs behave as what they are lowered from.
#![tactic(auto)]

mod called_law;
mod laws;
mod sizes_law;
mod valid_law;

pub use called_law::called_term_laws;
pub use laws::whole_laws;
pub use sizes_law::size_laws;
pub use valid_law::lowered_valid_laws;
