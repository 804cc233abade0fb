//! That the code of a library mentions libraries of its view alone. There is no code: the contracts
//! are the laws.
#![tactic(auto)]

mod laws;

pub use laws::{seen_programs_laws, viewed_rows_laws};
