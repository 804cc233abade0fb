//! Puts arms together from parts that were read, and says whether the clauses of a block suit it.
#![tactic(auto)]

pub mod arm_parts;
pub mod choices;
pub mod suits;
