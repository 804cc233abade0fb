//! The writer of fragments.

mod blocks;
mod bodies;
mod choices;
mod expressions;
mod forms;
mod loops;
mod parameters;
mod slots;
mod statements;

pub use forms::push_form;
