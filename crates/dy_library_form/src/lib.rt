//! The form of a library: what it imports and exports, and its faults; and which of several faults
//! is told (DRM 4, "Libraries").
#![tactic(auto)]

mod found;
mod laws;
mod library;
mod missing;

pub use found::{Found, first, tell};
pub use laws::{first_is_told, one_is_told};
pub use library::{
    Reading, Used, least_name, read_uses, shown_modules, tell_forms, tell_missing,
    tell_unknown_exports,
};
pub use missing::name_something;
