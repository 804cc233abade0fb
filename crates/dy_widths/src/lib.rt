//! The limit on required parameters, over the rows of a library.
#![tactic(auto)]

mod check;
mod lambdas;

pub use check::check_parameters;
pub use lambdas::is_wide_term;
