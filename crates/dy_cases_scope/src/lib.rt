//! Cases of names: forms in, and out their rows with names resolved.
#![tactic(auto)]

mod forms;
mod outer;
mod showing;
mod uses;

pub use showing::show;
