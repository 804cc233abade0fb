//! How many files a LID file names, in form or not.
#![tactic(auto)]

mod laws;
mod lines;
mod names;

pub use laws::name_laws;
pub use names::named_files;
