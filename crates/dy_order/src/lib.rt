//! Applicable methods, and their order (DRM 6, "Method Dispatch").
#![tactic(auto)]

mod answer;
mod dispatch;
mod laws;
mod precedence;
mod rows;
mod sorting;

pub use answer::Sorted;
pub use dispatch::{Dispatch, Plain};
pub use laws::order_laws;
pub use precedence::precedes;
pub use rows::{method_of, methods_in, specializers_of};
pub use sorting::sorted;
