//! A library of its rows, with the generic functions that its forms define or make.
#![tactic(auto)]

mod generics;
mod library;
mod rows;

pub use library::{Heading, assemble, assemble_own, own_library, program_with};
