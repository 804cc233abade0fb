//! The pieces of a text: their kinds, their lengths, and what literals stand for.
#![tactic(auto)]

mod class;
mod literal;
mod piece;
mod spelling;

pub use class::{Class, Piece, class_of, is_blank, is_digit, is_letter};
pub use literal::{decoded, folded, value_of};
pub use piece::piece_at;
