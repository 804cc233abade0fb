//! What the forms of a library define, and what names mean outside of bodies, by the modules of the
//! library (DRM 4, "Modules", and 10).
#![tactic(auto)]

mod library;
mod modules;
mod names;
mod reading;
mod tokens;

pub use library::LibraryDefinitions;
pub use names::{TableNames, resolve};
pub use tokens::in_module;
