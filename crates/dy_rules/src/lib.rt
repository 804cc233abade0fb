//! The grammar: which trees fragments stand for, how they are read, and how trees are written.
#![tactic(auto)]

mod laws;

pub use laws::{body_laws, constant_laws, expression_laws, form_laws, parsing_laws, type_laws};
