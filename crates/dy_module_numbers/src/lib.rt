//! The modules that the forms of a library define and name, as data by their numbers (DRM 4,
//! "Modules" and "Libraries").
#![tactic(auto)]

mod modules;
mod naming;
mod options;
mod outside;
mod ring;
mod sorting;

pub use modules::{Naming, put_modules, source_of};
pub use naming::{add_modules, brought_modules, is_other, number_of};
pub use options::{exported, use_clause};
pub use outside::{Outside, modules_outside};
pub use ring::is_on_ring;
pub use sorting::{Sorted, sort_forms};
