//! The integers of a library have 64 bits. There is no code: the contract is the law.
#![tactic(auto)]

mod laws;

pub use laws::word_laws;
