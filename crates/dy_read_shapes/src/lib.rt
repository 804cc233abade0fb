//! Tells what stands where inside of lists, statements and clauses.
#![tactic(auto)]

pub mod clause_shape;
pub mod initial;
pub mod item_shape;
pub mod keys_read;
pub mod keys_shape;
pub mod list_heads;
pub mod list_part;
pub mod loop_shape;
pub mod required;
