//! A program as the machine's world. What is built in is what a plain evaluator has.
#![tactic(auto)]

mod applicable;
mod built_in;
mod laws;
mod sole;
mod table;

pub use built_in::ProgramWorld;
pub use laws::world_laws;
