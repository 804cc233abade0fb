//! Instructions with the items that they name.

use dy_base::{BindingId, GenericId, Items, MethodId};
use dy_term::{DyType, Literal, Params, Results};

/// An instruction of which an operand is a local or a captured value.
#[derive(Clone, Copy)]
pub enum PlaceOp {
    Local(u32),
    SetLocal(u32),
    NewCell(u32),
    CellGet(u32),
    CellSet(u32),
    Free(u32),
    FreeGet(u32),
    FreeSet(u32),
}

/// An instruction that takes operands.
#[derive(Clone, Copy)]
pub enum CallOp<'a> {
    Closure(u32, u32),
    Search(GenericId, u32),
    CallDirect(&'a Items<MethodId>, &'a Items<MethodId>, u32),
    CallKnown(BindingId, u32),
    CallValue(u32),
    Values(u32),
    Op(u32, u32),
    Next(u32),
}

/// An instruction of rows in force.
#[derive(Clone, Copy)]
pub enum RowOp<'a> {
    Enter(u32),
    Leave,
    Guard(u32),
    Unguard,
    EndCleanup,
    /// A type, and its place in the list of types.
    Handle(&'a DyType, u32),
    Catch(&'a DyType, u32, u32),
    Unhandle(u32),
}

/// An instruction that names nothing.
#[derive(Clone, Copy)]
pub enum FlowOp {
    Push,
    Jump(u32),
    JumpFalse(u32),
    Tick,
    Return,
    Spread(u32, bool),
    Save,
    Restore,
    NextValue,
    NoMatch,
}

/// An instruction of an item of the library.
#[derive(Clone, Copy)]
pub enum ItemOp<'a> {
    Const(&'a Literal),
    Global(BindingId),
    SetGlobal(BindingId),
    Check(&'a DyType),
    CheckResults(&'a Results),
    Args(&'a Params),
}

#[derive(Clone, Copy)]
pub enum Instruction<'a> {
    Place(PlaceOp),
    Call(CallOp<'a>),
    Row(RowOp<'a>),
    Flow(FlowOp),
    Item(ItemOp<'a>),
}
