//! The items of a unit's lists as keys of a table.
#![tactic(auto)]

mod fed;
mod keys;
mod literals;
mod types;

pub use keys::{LiteralKey, NameKey, ParamsKey, ResultsKey, TypeKey};
