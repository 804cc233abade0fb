//! The public call of the reader: `parse`.
#![tactic(auto)]

mod parsed;
mod parsing;

pub use parsing::parse;
