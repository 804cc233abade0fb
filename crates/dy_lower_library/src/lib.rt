//! From libraries to flat code.
#![tactic(auto)]

mod bodies;
mod library;
mod starts;

pub use bodies::{FlatBody, body_alone, lambda_body};
pub use library::{bodies_of, start_count};
pub use starts::{starts_of, tops_of};
