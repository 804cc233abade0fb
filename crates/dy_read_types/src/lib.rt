//! Reads types, variables, targets of bindings and results.
#![tactic(auto)]

pub mod division;
pub mod limits;
pub mod results;
pub mod single;
pub mod targets;
pub mod type_shape;
pub mod types;
pub mod variable_shape;
pub mod variables;
