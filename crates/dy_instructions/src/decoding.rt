//! What an instruction is in the code of its library.

ghost use Rattle.std.specs.Prelude.{◌≡◌, ◌<◌, ◌^◌, ℕ, nat_le, nat_lt};
ghost use Rattle.dy_code.specs.Fetching.{keyword_locals, locals_of, rest_locals, where_so};
ghost use Rattle.dy_instructions.specs.Seen.{seen_place, Reads};
ghost use Rattle.dy_instructions.specs.Reading.{located_as, Decodes, DecodesAs, IsOf, IsAlways};

use crate::instruction::{CallOp, FlowOp, Instruction, ItemOp, PlaceOp, RowOp};
use dy_base::{GenericId, Items, Name, What};
use dy_code::{Body, Instr, Opcode, UnitCode, opcode_at};
use dy_term::Params;

/// A body with the code of its library.
#[derive(Clone, Copy)]
pub struct At<'a> {
    pub unit: &'a UnitCode,
    pub body: &'a Body,
}

/// An instruction of a local of the body.
fn local<'a>(at: At<'a>, n: u32, op: PlaceOp) -> Option<Instruction<'a>>
    requires { IsOf n op }
    ensures { (before : ℕ) → Reads (located_as at.entry before)
        (where_so (nat_lt n at.entry.body.now.locals) (seen_place op)) result }
{
    if n < at.body.locals {
        Some(Instruction::Place(op))
    } else {
        None
    }
}

/// An instruction of what the body captured.
fn capture<'a>(at: At<'a>, n: u32, op: PlaceOp) -> Option<Instruction<'a>>
    requires { IsAlways op }
    ensures { (before : ℕ) → Reads (located_as at.entry before)
        (where_so (nat_lt n at.entry.body.now.captures) (seen_place op)) result }
{
    if n < at.body.captures {
        Some(Instruction::Place(op))
    } else {
        None
    }
}

fn constant(at: At<'_>, first: u32, second: u32) -> Option<Instruction<'_>>
    ensures { Decodes at.entry Opcode.Const first second result }
{
    match at.unit.constants.as_slice().get(first as usize) {
        Some(literal) => Some(Instruction::Item(ItemOp::Const(literal))),
        None => None,
    }
}

fn global(at: At<'_>, first: u32, second: u32) -> Option<Instruction<'_>>
    ensures { Decodes at.entry Opcode.Global first second result }
{
    let Some(named) = at.unit.names.as_slice().get(first as usize) else {
        return None;
    };
    match named.what {
        What::Macro => None,
        _ => Some(Instruction::Item(ItemOp::Global(*named))),
    }
}

fn set_global(at: At<'_>, first: u32, second: u32) -> Option<Instruction<'_>>
    ensures { Decodes at.entry Opcode.SetGlobal first second result }
{
    let Some(named) = at.unit.names.as_slice().get(first as usize) else {
        return None;
    };
    match named.what {
        What::Variable | What::Constant => Some(Instruction::Item(ItemOp::SetGlobal(*named))),
        _ => None,
    }
}

/// A closure takes as many operands as its body has captured values.
fn closure(at: At<'_>, first: u32, second: u32) -> Option<Instruction<'_>>
    ensures { Decodes at.entry Opcode.Closure first second result }
{
    let Some(target) = at.unit.bodies.as_slice().get(first as usize) else {
        return None;
    };
    if second == target.captures {
        Some(Instruction::Call(CallOp::Closure(first, second)))
    } else {
        None
    }
}

fn search(at: At<'_>, first: u32, second: u32) -> Option<Instruction<'_>>
    ensures { Decodes at.entry Opcode.Search first second result }
{
    let Some(named) = at.unit.names.as_slice().get(first as usize) else {
        return None;
    };
    match named.what {
        What::Generic => Some(Instruction::Call(CallOp::Search(GenericId(named.at), second))),
        _ => None,
    }
}

/// A bound list holds at least one method.
fn direct(at: At<'_>, first: u32, second: u32) -> Option<Instruction<'_>>
    ensures { Decodes at.entry Opcode.CallDirect first second result }
{
    let Some((sorted, ambiguous)) = at.unit.bound.as_slice().get(first as usize) else {
        return None;
    };
    if sorted.len() == 0 && ambiguous.len() == 0 {
        return None;
    }
    Some(Instruction::Call(CallOp::CallDirect(sorted, ambiguous, second)))
}

fn known(at: At<'_>, first: u32, second: u32) -> Option<Instruction<'_>>
    ensures { Decodes at.entry Opcode.CallKnown first second result }
{
    let Some(named) = at.unit.names.as_slice().get(first as usize) else {
        return None;
    };
    match named.what {
        What::Function => Some(Instruction::Call(CallOp::CallKnown(*named, second))),
        _ => None,
    }
}

fn spread(at: At<'_>, first: u32, second: u32) -> Option<Instruction<'_>>
    ensures { Decodes at.entry Opcode.Spread first second result }
{
    match second {
        0 => Some(Instruction::Flow(FlowOp::Spread(first, false))),
        1 => Some(Instruction::Flow(FlowOp::Spread(first, true))),
        _ => None,
    }
}

fn check(at: At<'_>, first: u32, second: u32) -> Option<Instruction<'_>>
    ensures { Decodes at.entry Opcode.Check first second result }
{
    match at.unit.types.as_slice().get(first as usize) {
        Some(class) => Some(Instruction::Item(ItemOp::Check(class))),
        None => None,
    }
}

fn check_results(at: At<'_>, first: u32, second: u32) -> Option<Instruction<'_>>
    ensures { Decodes at.entry Opcode.CheckResults first second result }
{
    match at.unit.results.as_slice().get(first as usize) {
        Some(results) => Some(Instruction::Item(ItemOp::CheckResults(results))),
        None => None,
    }
}

fn handle(at: At<'_>, first: u32, second: u32) -> Option<Instruction<'_>>
    ensures { Decodes at.entry Opcode.Handle first second result }
{
    match at.unit.types.as_slice().get(first as usize) {
        Some(class) => Some(Instruction::Row(RowOp::Handle(class, first))),
        None => None,
    }
}

fn catch(at: At<'_>, first: u32, second: u32) -> Option<Instruction<'_>>
    ensures { Decodes at.entry Opcode.Catch first second result }
{
    match at.unit.types.as_slice().get(first as usize) {
        Some(class) => Some(Instruction::Row(RowOp::Catch(class, first, second))),
        None => None,
    }
}

/// Flag 0 is the arguments of the method itself, as is no operand with flag 1.
fn next_call(at: At<'_>, first: u32, second: u32) -> Option<Instruction<'_>>
    ensures { Decodes at.entry Opcode.Next first second result }
{
    match (first, second) {
        (0, 0) => Some(Instruction::Call(CallOp::Next(0))),
        (1, _) => Some(Instruction::Call(CallOp::Next(second))),
        _ => None,
    }
}

fn fault(at: At<'_>, first: u32, second: u32) -> Option<Instruction<'_>>
    ensures { Decodes at.entry Opcode.Fault first second result }
{
    match first {
        0 => Some(Instruction::Flow(FlowOp::NoMatch)),
        _ => None,
    }
}

/// How many locals the arguments behind the required ones take.
fn rest_locals(rest: bool) -> u128
    ensures { result ≡ rest_locals rest }
{
    if rest { 1 } else { 0 }
}

/// How many locals keywords take.
fn keyword_locals(keys: &Option<Items<Name>>) -> u128
    ensures count { result ≡ keyword_locals keys.now }
    ensures bound { result < 2 ^ 66 }
{
    match keys {
        Some(keys) => 2 * keys.len() as u128,
        None => 0,
    }
}

/// Whether so many locals are enough for the arguments of a parameter list.
fn has_room(params: &Params, locals: u32) -> bool
    ensures { result ≡ nat_le (locals_of params.now) locals }
{
    let rest = rest_locals(params.rest);
    let keywords = keyword_locals(&params.keys);
    params.required.len() as u128 + rest + keywords <= locals as u128
}

fn args(at: At<'_>, first: u32, second: u32) -> Option<Instruction<'_>>
    ensures { Decodes at.entry Opcode.Args first second result }
{
    let Some(params) = at.unit.lists.as_slice().get(first as usize) else {
        return None;
    };
    if has_room(params, at.body.locals) {
        Some(Instruction::Item(ItemOp::Args(params)))
    } else {
        None
    }
}

fn call(op: CallOp<'_>) -> Option<Instruction<'_>>
    ensures { result ≡ Some (Instruction.Call op.entry) }
{
    Some(Instruction::Call(op))
}

fn row(op: RowOp<'_>) -> Option<Instruction<'_>>
    ensures { result ≡ Some (Instruction.Row op.entry) }
{
    Some(Instruction::Row(op))
}

fn flow<'a>(op: FlowOp) -> Option<Instruction<'a>>
    ensures { result ≡ Some (Instruction.Flow op) }
{
    Some(Instruction::Flow(op))
}

/// The instruction of an operation with these operands, where each names an item.
fn decoded(at: At<'_>, opcode: Opcode, first: u32, second: u32) -> Option<Instruction<'_>>
    ensures { Decodes at.entry opcode first second result }
{
    match opcode {
        Opcode::Const => constant(at, first, second),
        Opcode::Local => local(at, first, PlaceOp::Local(first)),
        Opcode::SetLocal => local(at, first, PlaceOp::SetLocal(first)),
        Opcode::NewCell => local(at, first, PlaceOp::NewCell(first)),
        Opcode::CellGet => local(at, first, PlaceOp::CellGet(first)),
        Opcode::CellSet => local(at, first, PlaceOp::CellSet(first)),
        Opcode::Free => capture(at, first, PlaceOp::Free(first)),
        Opcode::FreeGet => capture(at, first, PlaceOp::FreeGet(first)),
        Opcode::FreeSet => capture(at, first, PlaceOp::FreeSet(first)),
        Opcode::Global => global(at, first, second),
        Opcode::SetGlobal => set_global(at, first, second),
        Opcode::Push => flow(FlowOp::Push),
        Opcode::Jump => flow(FlowOp::Jump(first)),
        Opcode::JumpFalse => flow(FlowOp::JumpFalse(first)),
        Opcode::Tick => flow(FlowOp::Tick),
        Opcode::Closure => closure(at, first, second),
        Opcode::Search => search(at, first, second),
        Opcode::CallDirect => direct(at, first, second),
        Opcode::CallKnown => known(at, first, second),
        Opcode::CallValue => call(CallOp::CallValue(first)),
        Opcode::Return => flow(FlowOp::Return),
        Opcode::Values => call(CallOp::Values(first)),
        Opcode::Spread => spread(at, first, second),
        Opcode::Check => check(at, first, second),
        Opcode::CheckResults => check_results(at, first, second),
        Opcode::Op => call(CallOp::Op(first, second)),
        Opcode::Enter => row(RowOp::Enter(first)),
        Opcode::Leave => row(RowOp::Leave),
        Opcode::Guard => row(RowOp::Guard(first)),
        Opcode::Unguard => row(RowOp::Unguard),
        Opcode::EndCleanup => row(RowOp::EndCleanup),
        Opcode::Handle => handle(at, first, second),
        Opcode::Catch => catch(at, first, second),
        Opcode::Unhandle => row(RowOp::Unhandle(first)),
        Opcode::Save => flow(FlowOp::Save),
        Opcode::Restore => flow(FlowOp::Restore),
        Opcode::Next => next_call(at, first, second),
        Opcode::NextValue => flow(FlowOp::NextValue),
        Opcode::Fault => fault(at, first, second),
        Opcode::Args => args(at, first, second),
    }
}

/// What an instruction is, where it is one.
pub fn decode(at: At<'_>, instr: Instr) -> Option<Instruction<'_>>
    ensures { DecodesAs at.entry instr result }
{
    match opcode_at(instr.op) {
        Some(opcode) => decoded(at, opcode, instr.first, instr.second),
        None => None,
    }
}
