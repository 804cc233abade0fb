//! Cases of forms, each of which is read once: a text in, and out what its table shows of it.
#![tactic(auto)]

mod cores;
mod reading;
mod showing;
mod views;
mod write;

pub use showing::show;
