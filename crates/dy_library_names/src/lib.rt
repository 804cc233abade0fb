//! The library of its forms and what its names are, or its first fault (DRM 4, "Modules", and 10).
#![tactic(auto)]

mod closing;
mod early;
mod laws;
mod library;
mod reading;
mod rows;
mod telling;

pub use laws::naming_laws;
pub use library::{Named, name_library};
