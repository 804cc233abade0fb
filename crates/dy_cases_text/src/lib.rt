//! What tests of forms share: the fragments of a text.
#![tactic(auto)]

mod reading;
mod words;

pub use reading::fragments_of;
