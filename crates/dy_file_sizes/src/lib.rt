//! How large the rows are that the forms of files become.
#![tactic(auto)]

mod laws;

pub use laws::file_size_laws;
