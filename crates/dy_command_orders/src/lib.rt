//! The law that the order of a command's words changes nothing. There is no code: the contract is
//! the law.
#![tactic(auto)]

mod laws;

pub use laws::command_order_laws;
