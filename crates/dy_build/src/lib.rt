//! Commands: libraries are read, lowered and run.
#![tactic(auto)]

mod command;
mod laws;
mod lines;
mod words;

pub use command::{check, run_words};
pub use laws::outcome_laws;
