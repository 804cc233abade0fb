//! The forms that define a library and its modules, read from the groups of their files (DRM 4,
//! "Modules" and "Libraries").
#![tactic(auto)]

mod clauses;
mod cuts;
mod forms;
mod names;
mod options;
mod sets;
mod written;

pub use forms::read_forms;
pub use written::{Clause, Form, Kind, Member, Placed, UseOption};
