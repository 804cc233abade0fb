//! Fragments as the reader asks for them: what stands in front, between brackets, and between
//! separators.
#![tactic(auto)]

pub mod binding;
pub mod cutting;
pub mod depth;
pub mod form_front;
pub mod front;
pub mod item_front;
pub mod kind;
pub mod literal;
pub mod mark;
pub mod names;
pub mod operand;
pub mod part;
pub mod pieces;
pub mod separator;
pub mod sides;
pub mod trim;
pub mod value;
pub mod words;
