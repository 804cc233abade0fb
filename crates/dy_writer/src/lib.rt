//! The writer of the grammar: forms are written as their canonical fragments.
#![tactic(auto)]

mod write;

pub use write::push_form;
