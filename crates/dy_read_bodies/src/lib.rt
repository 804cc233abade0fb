//! Reads expressions, statements, bodies and methods.
#![tactic(auto)]

pub mod arms;
pub mod blocks;
pub mod bodies;
pub mod choice;
pub mod clauses;
pub mod expressions;
pub mod for_loops;
pub mod keys;
pub mod listed;
pub mod methods;
pub mod parameters;
pub mod signatures;
pub mod statement;
pub mod statements;
