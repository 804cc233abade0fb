//! Where the locals of a body stand.
#![tactic(auto)]

mod layout;

pub use layout::{Layout, captures};
