//! Cases of the forms that define a library and its modules: files in, and out what is told of them or
//! what the modules see.
//!
//! A case is what files hold behind their headers, and then what is asked (`README.md`).
#![tactic(auto)]

mod answers;
mod files;
mod libraries;
mod reading;
mod showing;

pub use showing::show;
