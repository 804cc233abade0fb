//! Reads source files and LID files as tokens.
#![tactic(auto)]

mod files;
mod header;
mod laws;
mod reading;
mod source;
mod token;

pub use files::{lex, read_lid};
pub use laws::token_laws;
pub use source::{Lid, Source};
