//! The tables of a library's modules: who owns what a name means, what it is defined as, and where
//! definitions may stand (DRM 4, "Modules" and "Libraries").
#![tactic(auto)]

mod lacking;
mod lent;
mod lookup;
mod meant;
mod module_table;
mod promise;

pub use lent::LentNames;
pub use meant::OpenTable;
pub use module_table::ModuleTable;
pub use promise::Promise;
