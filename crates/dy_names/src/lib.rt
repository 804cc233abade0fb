//! What a name means: the locals in force, the table of what is defined outside, and the choice
//! between them.
#![tactic(auto)]

mod denotation;
mod environment;
mod laws;
mod lookup;
mod owners;
mod scope;

pub use denotation::{Denotation, Meaning};
pub use environment::Environment;
pub use laws::naming_laws;
pub use lookup::{hidden_meaning, meaning};
pub use owners::OwnerTable;
pub use scope::{Bound, Scope};
