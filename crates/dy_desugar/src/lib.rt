//! Expressions and statements of the source as drafts of core terms.
#![tactic(auto)]

mod bodies;
mod choices;
mod expressions;
mod first;
mod methods;
mod scopes;
mod statements;
mod turns;
mod walks;

pub use bodies::body_of;
pub use expressions::term_of;
pub use first::name_in;
pub use methods::{defaults_of, lambda_from, params_of, returned_of};
