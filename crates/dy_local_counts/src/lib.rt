//! How many locals a term has that runs by itself.
#![tactic(auto)]

mod counts;

pub use counts::numbers_in;
