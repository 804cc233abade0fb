//! A machine runs the same with the rows of a program without terms. There is no code: the contract
//! is the law.
#![tactic(auto)]

mod laws;

pub use laws::bare_machine_laws;
