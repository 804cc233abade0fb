//! Which names each module of a library sees, and who owns them (DRM 4, "Modules" and "Libraries").
#![tactic(auto)]

mod build;
mod clash;
mod clause;
mod laws;
mod names;
mod owner;
mod rounds;
mod table;

pub use build::all_clear;
pub use clash::first_clash;
pub use clause::{ModuleForm, UseClause, brought, picked};
pub use laws::least_set;
pub use names::NameSet;
pub use owner::Owner;
pub use rounds::{ModuleTables, bring_from, settle};
pub use table::Cell;
