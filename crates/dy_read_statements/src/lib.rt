//! Puts statements together from parts that were read.
#![tactic(auto)]

pub mod arm_nodes;
pub mod branch;
pub mod caught;
pub mod clause_nodes;
pub mod head;
pub mod listed_read;
pub mod loop_head;
pub mod loop_nodes;
pub mod method_read;
pub mod others;
pub mod signature_front;
pub mod statement_nodes;
pub mod tested;
