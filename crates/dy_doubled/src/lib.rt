//! Modules that a library defines twice, or defines and imports, and libraries of one name (DRM 4,
//! "Modules" and "Libraries").
#![tactic(auto)]

mod doubled;
mod imported;
mod laws;

pub use doubled::{TakenNames, redefined};
pub use laws::doubled_laws;
