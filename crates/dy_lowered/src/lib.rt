//! What the code of terms and libraries is: a function of theirs.
#![tactic(auto)]

mod laws;

pub use laws::lowered_laws;
