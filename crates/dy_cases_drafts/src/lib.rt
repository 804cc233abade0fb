//! What tests of names share: the forms of a text in the core.
#![tactic(auto)]

mod drafts;

pub use drafts::drafts_of;
