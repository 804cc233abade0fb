//! Types as sets of members: what is an instance of one, which lies below which, and which can
//! meet.
#![tactic(auto)]

mod classes;
mod laws;
mod literals;
mod members;
mod types;

pub use laws::type_laws;
pub use types::{instance, meet, subtype};
