//! What stands in code, with the items that it names.
#![tactic(auto)]

mod decoding;
mod instruction;

pub use decoding::{At, decode};
pub use instruction::{CallOp, FlowOp, Instruction, ItemOp, PlaceOp, RowOp};
