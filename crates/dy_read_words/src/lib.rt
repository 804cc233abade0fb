//! What tokens are to the grammar: roles, words, brackets, adjectives.
#![tactic(auto)]

pub mod adjective;
pub mod alone;
pub mod bounds;
pub mod bracket;
pub mod define_word;
pub mod option_word;
pub mod part_word;
pub mod role;
pub mod sign;
pub mod slot;
pub mod slot_word;
pub mod splitter;
pub mod type_word;
