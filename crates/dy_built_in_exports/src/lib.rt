//! What the libraries `dylan` and `io` export (DRM 4, "Libraries").
#![tactic(auto)]

mod exports;
mod rows;

pub use exports::{dylan_exports, io_exports};
