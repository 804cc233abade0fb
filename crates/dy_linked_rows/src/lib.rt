//! Rows in a program, where libraries stand at other places than in the views in which the rows
//! were read. There is no code: the contracts are the laws.
#![tactic(auto)]

mod joining;
mod linking;
mod scopes;

pub use joining::linked_programs_laws;
pub use linking::linked_rows_laws;
pub use scopes::linked_scopes_laws;
