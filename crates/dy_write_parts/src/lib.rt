//! Parts of the canonical fragments of trees: all that is written without an expression in it, the
//! marks and brackets of expressions and statements, and round which trees brackets stand.
#![tactic(auto)]

pub mod brackets;
pub mod breaks;
pub mod constants;
pub mod leaves;
pub mod literals;
pub mod mark;
pub mod marks;
pub mod names;
pub mod parameter_list;
pub mod targets;
pub mod types;
