//! The gate of constructs and what is lowered agree. There is no code: the contract is the law.
#![tactic(auto)]

mod drafts_law;
mod laws;

pub use drafts_law::lowered_draft_laws;
pub use laws::lowered_form_laws;
