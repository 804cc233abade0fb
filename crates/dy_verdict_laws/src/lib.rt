//! What holds of the verdicts on libraries. There is no code: the contract is the law.
#![tactic(auto)]

mod laws;

pub use laws::verdict_laws;
