//! What tests of programs share: the program of a text.
#![tactic(auto)]

mod programs;

pub use programs::program_of;
