//! Instructions as a body keeps them.

/// An instruction: the number of its operation, and its operands. An operand that the operation
/// does not have is 0.
#[derive(Clone, Copy)]
pub struct Instr {
    pub op: u8,
    pub first: u32,
    pub second: u32,
}
