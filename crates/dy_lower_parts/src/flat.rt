//! Instructions before they have a place.

use dy_base::{BindingId, GenericId};
use dy_term::{DyType, Literal, Params, Results};

/// An instruction whose items stand as themselves. A distance counts instructions from the next one
/// on.
#[derive(Clone, Copy)]
pub enum Flat<'a> {
    Const(&'a Literal),
    /// `#t` or `#f` as a constant.
    Truth(bool),
    /// A number as a constant.
    Number(i64),
    Local(u32),
    SetLocal(u32),
    NewCell(u32),
    CellGet(u32),
    CellSet(u32),
    Free(u32),
    FreeGet(u32),
    FreeSet(u32),
    Global(BindingId),
    SetGlobal(BindingId),
    Push,
    Jump(i64),
    JumpFalse(i64),
    Tick,
    /// The number of the body, and how many values it captures.
    Closure(u32, u32),
    Search(GenericId, u32),
    CallKnown(BindingId, u32),
    CallValue(u32),
    Return,
    Values(u32),
    Spread(u32, bool),
    CheckResults(&'a Results),
    Op(u16, u32),
    Handle(&'a DyType),
    Unhandle(u32),
    Save,
    Restore,
    NoMatch,
    Args(&'a Params),
}
