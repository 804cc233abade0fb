//! That names of modules are in lower case. There is no code: the contract is the law.
#![tactic(auto)]

mod laws;

pub use laws::folded_name_laws;
