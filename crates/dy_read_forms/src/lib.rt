//! Reads the fragments of a form as a tree.
#![tactic(auto)]

mod definitions;
mod form_read;
mod forms;
mod name_front;
mod slots;

pub use form_read::FormRead;
pub use forms::form;
