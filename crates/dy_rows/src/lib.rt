//! Whole forms as rows: their names are resolved, and their locals numbered.
#![tactic(auto)]

mod classes;
mod copies;
mod forms;
mod owners;
mod rows;

pub use rows::resolve;
