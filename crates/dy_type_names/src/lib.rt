//! What types stand for by the names in them, and what the type constants of a library stand for.
#![tactic(auto)]

mod constants_read;
mod evaluation;
mod laws;
mod reading;
mod row_table;
mod standing;

pub use evaluation::{TypeConstants, type_constants};
pub use laws::standing_laws;
pub use reading::type_of;
pub use standing::{NamedTypes, Standing};
