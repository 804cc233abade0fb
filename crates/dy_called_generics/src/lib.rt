//! That the generic functions which code calls are there. There is no code: the contract is the
//! law.
#![tactic(auto)]

mod laws;

pub use laws::called_laws;
