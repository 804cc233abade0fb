//! Cases of code: a program in, and out the code of its bodies.
#![tactic(auto)]

mod bodies;
mod showing;

pub use showing::show;
