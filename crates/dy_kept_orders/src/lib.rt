//! The law that orders of classes stay where classes get other names.
#![tactic(auto)]

mod laws;

pub use laws::kept_orders;
