//! The table of a library's modules, from the forms that define it (DRM 4, "Modules" and
//! "Libraries").
#![tactic(auto)]

mod clash;
mod judging;
mod laws;
mod promises;
mod table;

pub use laws::graph_laws;
pub use table::graph;
