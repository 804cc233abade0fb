//! Trees that are too deep: what stands in their place, and that readers give the same whatever
//! stands there.
#![tactic(auto)]

mod laws;

pub use laws::{form_depth_laws, reader_laws};
