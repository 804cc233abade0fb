//! That rows of the front end are in scope. The function does nothing: its contract is the law.
#![tactic(auto)]

mod laws;
mod terms_law;

pub use laws::scoped_row_laws;
pub use terms_law::scoped_laws;
