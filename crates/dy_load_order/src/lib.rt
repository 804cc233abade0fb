//! The load order of libraries (DRM 4, "Libraries").
#![tactic(auto)]

mod laws;
mod order;
mod places;

pub use laws::load_order_laws;
pub use order::load_order;
pub use places::places_in;
