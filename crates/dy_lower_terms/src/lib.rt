//! From terms to flat code.
#![tactic(auto)]

mod loops;
mod terms;

pub use dy_lower_parts::{Buffer, Flat, Refusal, put_cells};
pub use terms::emit;
