//! The forms of a file that are complete, also where others of it have a fault in their groups.
#![tactic(auto)]

mod complete;
mod ends;
mod laws;

pub use complete::complete_forms;
pub use laws::complete_laws;
