//! That libraries come to the same in each order of a command's words in which each stands behind
//! those that it uses. There is no code: the contract is the law.
#![tactic(auto)]

mod laws;

pub use laws::order_laws;
