//! The constructs of the language that a form holds, and whether all of them have come.
#![tactic(auto)]

mod bodies;
mod choices;
mod expressions;
mod forms;
mod laws;
mod parameters;
mod scopes;
mod statements;

pub use forms::absent_construct;
pub use laws::construct_laws;
