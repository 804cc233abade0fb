//! What a library sees of those that were compiled before it (DRM 4, "Libraries").
#![tactic(auto)]

mod compiled;
mod laws;
mod linked;
mod used;
mod view;

pub use compiled::Compiled;
pub use laws::view_laws;
pub use view::{View, view_of};
