//! Drafts of the core as texts, to be compared and read.
#![tactic(auto)]

mod print;
mod written;

pub use print::write_draft;
pub use written::Written;
