//! Cases of the meaning: a program in, and out what `evaluate` prints of it, how it ends, and with how
//! many units.
#![tactic(auto)]

mod runs;
mod showing;

pub use showing::show;
