//! Groups the tokens of a file by brackets and by words that have an `end`.
#![tactic(auto)]

mod closing;
mod front;
mod grouping;
mod laws;
mod sign;
mod steps;
mod word;

pub use closing::Closing;
pub use front::{Closer, Context, Local, Mode};
pub use grouping::group;
pub use laws::group_laws;
pub use sign::Bracket;
