//! Cases of the order of methods and of generic functions: rows of a small program in, and out their order, or what is wrong with them.
#![tactic(auto)]

mod classes;
mod drawn;
mod fitting;
mod orders;
mod pairs;
mod rows;
mod shapes;
mod showing;

pub use showing::show;
