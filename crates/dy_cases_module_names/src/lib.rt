//! Cases of names by modules: the files of a library with modules in, and out what is told of its
//! definitions and names, or what its modules mean by names.
//!
//! A case is what files hold behind their headers, and then what is asked (`README.md`).
#![tactic(auto)]

mod answers;
mod files;
mod forms;
mod libraries;
mod modules;
mod showing;
mod words;

pub use showing::show;
