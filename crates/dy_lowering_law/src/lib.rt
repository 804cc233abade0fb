//! The machine on lowered code does what the source means.
#![tactic(auto)]

mod calls_law;
mod fors_law;
mod laws;
mod parts_law;

pub use calls_law::calls_laws;
pub use fors_law::for_laws;
pub use laws::lowering_laws;
pub use parts_law::parts_laws;
