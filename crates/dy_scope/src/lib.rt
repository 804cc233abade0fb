//! Drafts as terms: names are resolved, and locals numbered (DRM 4, "Bindings").
#![tactic(auto)]

mod made;
mod terms;

pub use terms::{lambda_term, term};
