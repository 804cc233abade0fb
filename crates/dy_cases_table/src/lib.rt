//! Tables of cases in files: a text, and what is to be shown of it.
#![tactic(auto)]

mod program;
mod repeats;
mod table;

pub use program::compare_tables;
pub use table::Subject;
