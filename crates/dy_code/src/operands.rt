//! Which operands each operation takes.

ghost use Rattle.std.specs.Prelude.{◌≡◌};
ghost use Rattle.dy_code.specs.Opcodes.{one, two, operands_of};

use crate::opcode::Opcode;

/// What an operand is: a place in a list, a number, or nothing.
#[derive(Clone, Copy)]
pub enum Operand {
    /// The operation has no such operand. It is 0.
    Absent,
    /// A constant of the unit.
    Constant,
    /// A local of the body.
    Local,
    /// A captured value of the body.
    Capture,
    /// A name of the unit: a variable, a constant, a class, a generic function or a function.
    Named,
    /// A name of the unit: a variable or a constant.
    Variable,
    /// A name of the unit: a generic function.
    Generic,
    /// A name of the unit: a function.
    Function,
    /// A bound list of the unit.
    Bound,
    /// A parameter list of the unit.
    Parameters,
    /// A type of the unit.
    Type,
    /// A list of results of the unit.
    Results,
    /// A body of the unit.
    Body,
    /// An instruction of the body.
    Address,
    /// A built-in operation.
    Operation,
    /// A built-in error: 0, that no arm of a `select` is chosen.
    Error,
    /// How many operands or rows.
    Count,
    /// 0 or 1.
    Flag,
}

/// The operands of an operation.
#[derive(Clone, Copy)]
pub struct Operands {
    pub first: Operand,
    pub second: Operand,
}

/// One operand.
fn one(first: Operand) -> Operands
    ensures { result ≡ one first }
{
    Operands {
        first,
        second: Operand::Absent,
    }
}

/// Two operands.
fn two(first: Operand, second: Operand) -> Operands
    ensures { result ≡ two first second }
{
    Operands { first, second }
}

impl Opcode {
    /// The operands that it takes.
    pub fn operands(self) -> Operands
        ensures { result ≡ operands_of self }
    {
        match self {
            Opcode::Const => one(Operand::Constant),
            Opcode::Local | Opcode::SetLocal => one(Operand::Local),
            Opcode::NewCell | Opcode::CellGet | Opcode::CellSet => one(Operand::Local),
            Opcode::Free | Opcode::FreeGet | Opcode::FreeSet => one(Operand::Capture),
            Opcode::Global => one(Operand::Named),
            Opcode::SetGlobal => one(Operand::Variable),
            Opcode::Jump | Opcode::JumpFalse => one(Operand::Address),
            Opcode::Enter | Opcode::Guard => one(Operand::Address),
            Opcode::Closure => two(Operand::Body, Operand::Count),
            Opcode::Search => two(Operand::Generic, Operand::Count),
            Opcode::CallDirect => two(Operand::Bound, Operand::Count),
            Opcode::CallKnown => two(Operand::Function, Operand::Count),
            Opcode::Op => two(Operand::Operation, Operand::Count),
            Opcode::CallValue | Opcode::Values | Opcode::Unhandle => one(Operand::Count),
            Opcode::Spread => two(Operand::Count, Operand::Flag),
            Opcode::Next => two(Operand::Flag, Operand::Count),
            Opcode::Check | Opcode::Handle => one(Operand::Type),
            Opcode::CheckResults => one(Operand::Results),
            Opcode::Catch => two(Operand::Type, Operand::Address),
            Opcode::Fault => one(Operand::Error),
            Opcode::Args => one(Operand::Parameters),
            Opcode::Push | Opcode::Tick | Opcode::Return => one(Operand::Absent),
            Opcode::Leave | Opcode::Unguard | Opcode::EndCleanup => one(Operand::Absent),
            Opcode::Save | Opcode::Restore | Opcode::NextValue => one(Operand::Absent),
        }
    }
}
