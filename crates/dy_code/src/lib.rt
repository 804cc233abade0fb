//! Flat code: instructions and their tables, the code of a library and of a program, what stands at
//! a place of it, and which code may run.
#![tactic(auto)]

mod instr;
mod laws;
mod opcode;
mod operands;
mod unit;

pub use instr::Instr;
pub use laws::code_laws;
pub use opcode::{Opcode, opcode_at};
pub use operands::{Operand, Operands};
pub use unit::{Body, Library, Linked, TopCode, Unit, UnitCode};
