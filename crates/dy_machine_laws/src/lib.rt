//! What is built in fits each program and adds no units. There is no code: the contract is the law.
#![tactic(auto)]

mod laws;

pub use laws::machine_laws;
