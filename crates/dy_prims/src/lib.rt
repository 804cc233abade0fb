//! What the built-in operations give, and the rows of the built-in libraries.
#![tactic(auto)]

mod calls;
mod laws;
mod operation;
mod rows;

pub use calls::apply;
pub use laws::operation_laws;
pub use operation::{Operation, operation_at};
pub use rows::{dylan, io};
