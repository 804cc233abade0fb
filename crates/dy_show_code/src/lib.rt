//! Flat code as text, for tests: what operands name stands as itself.
#![tactic(auto)]

mod code;
mod literals;
mod names;

pub use code::write_code;
