//! Source forms as drafts of the core.
#![tactic(auto)]

mod forms;
mod slots;
mod type_constants;

pub use forms::to_core;
