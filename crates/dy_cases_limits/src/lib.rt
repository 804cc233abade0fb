//! Cases of the limit on tokens: forms in, and out the first with which they have too many.
#![tactic(auto)]

mod showing;

pub use showing::show;
