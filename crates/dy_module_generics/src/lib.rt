//! That the generic functions which code calls are there, where modules give the names. There is no
//! code: the contract is the law.
#![tactic(auto)]

mod laws;

pub use laws::{behind_laws, named_laws};
