//! What holds of the runs of libraries that are accepted. There is no code: the contract is the
//! law.
#![tactic(auto)]

mod laws;

pub use laws::accepted_run_laws;
