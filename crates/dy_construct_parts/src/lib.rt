//! The constructs of the language, which of them run, and those of the parts of a tree that hold no
//! expression.
#![tactic(auto)]

pub mod bindings;
pub mod constants;
pub mod construct;
pub mod directives;
pub mod parts;
pub mod types;
pub mod words;
