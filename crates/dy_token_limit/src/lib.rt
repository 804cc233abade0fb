//! The limit on the tokens of a library's forms.
#![tactic(auto)]

mod laws;
mod limit;
mod tokens;

pub use laws::token_limit_laws;
pub use limit::{MOST_TOKENS, first_over, too_many_tokens};
