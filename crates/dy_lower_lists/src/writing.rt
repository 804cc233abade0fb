//! Instructions whose items stand in the lists.

ghost use Rattle.std.specs.Prelude.{◌≡◌, IfOk, Some};
ghost use Rattle.dy_values.specs.Identity.{is_same_binding};
ghost use Rattle.dy_lowered.specs.Flat as flats;
ghost use Rattle.dy_lowered.specs.Flat.{placed};
ghost use Rattle.dy_lowered.specs.Sameness.{is_same_literal, is_same_params, is_same_type};
ghost use Rattle.dy_lowered.specs.Sameness.{is_same_results};
ghost use Rattle.dy_lowered.specs.Tables as tables;
ghost use Rattle.dy_lowered.specs.Tables.{written, index_in};
ghost use Rattle.dy_lower_parts.specs.Seen.{seen};
ghost use Rattle.dy_keys.specs.Keys.{literal_of};
ghost use Rattle.dy_lower_lists.specs.Listed.{tables as tables_in};

use crate::lists::{Lists, generic_named};
use dy_base::BindingId;
use dy_code::{Instr, Opcode};
use dy_keys::{LiteralKey, NameKey, ParamsKey, ResultsKey, TypeKey};
use dy_lower_parts::{Flat, Refusal};
use dy_term::{DyType, Params, Results};

fn two(opcode: Opcode, first: u32, second: u32) -> Instr
    ensures { result ≡ tables.two opcode first second }
{
    Instr {
        op: opcode.number(),
        first,
        second,
    }
}

fn one(opcode: Opcode, first: u32) -> Instr
    ensures { result ≡ tables.one opcode first }
{
    two(opcode, first, 0)
}

fn none(opcode: Opcode) -> Instr
    ensures { result ≡ tables.none opcode }
{
    one(opcode, 0)
}

fn flag(flag: bool) -> u32
    ensures { result ≡ tables.flag flag }
{
    if flag { 1 } else { 0 }
}

/// A place that was found. All items are noted before they are written, and no list is so long that
/// it is an error.
fn index(found: Option<usize>) -> Result<u32, Refusal>
    ensures { IfOk result (λ index. found ≡ Some index) }
{
    match found {
        Some(index) => match u32::try_from(index) {
            Ok(index) => Ok(index),
            Err(_) => Err(Refusal::Memory),
        },
        None => Err(Refusal::Memory),
    }
}

fn literal_index(lists: &Lists, key: LiteralKey) -> Result<u32, Refusal>
    ensures { IfOk result (λ index. index
        ≡ index_in is_same_literal (literal_of key.entry) (tables_in lists.now).constants) }
{
    let index = index(lists.constants.get_index_of(&key))?;
    Ok(index)
}

fn name_index(lists: &Lists, name: BindingId) -> Result<u32, Refusal>
    ensures { IfOk result (λ index. index
        ≡ index_in is_same_binding name (tables_in lists.now).names) }
{
    let key = NameKey(name);
    let index = index(lists.names.get_index_of(&key))?;
    Ok(index)
}

fn params_index(lists: &Lists, params: &Params) -> Result<u32, Refusal>
    ensures { IfOk result (λ index. index
        ≡ index_in is_same_params params.now (tables_in lists.now).lists) }
{
    let key = ParamsKey(params);
    let index = index(lists.lists.get_index_of(&key))?;
    Ok(index)
}

fn type_index(lists: &Lists, declared: &DyType) -> Result<u32, Refusal>
    ensures { IfOk result (λ index. index
        ≡ index_in is_same_type declared.now (tables_in lists.now).types) }
{
    let key = TypeKey(declared);
    let index = index(lists.types.get_index_of(&key))?;
    Ok(index)
}

fn results_index(lists: &Lists, results: &Results) -> Result<u32, Refusal>
    ensures { IfOk result (λ index. index
        ≡ index_in is_same_results results.now (tables_in lists.now).results) }
{
    let key = ResultsKey(results);
    let index = index(lists.results.get_index_of(&key))?;
    Ok(index)
}

/// The place to which a distance leads. No code is so long that it is an error.
pub fn address(place: usize, distance: i64) -> Result<u32, Refusal>
    ensures { IfOk result (λ address. address ≡ flats.address place distance) }
{
    let place = match i64::try_from(place) {
        Ok(place) => place,
        Err(_) => return Err(Refusal::Memory),
    };
    let far = match distance.checked_add(1) {
        Some(far) => far,
        None => return Err(Refusal::Memory),
    };
    let to = match place.checked_add(far) {
        Some(to) => to,
        None => return Err(Refusal::Memory),
    };
    match u32::try_from(to) {
        Ok(address) => Ok(address),
        Err(_) => Err(Refusal::Memory),
    }
}

/// An instruction with a literal.
fn constant(lists: &Lists, key: LiteralKey) -> Result<Instr, Refusal>
    ensures { IfOk result (λ instruction. instruction ≡ tables.one Opcode.Const
        (index_in is_same_literal (literal_of key.entry) (tables_in lists.now).constants)) }
{
    let index = literal_index(lists, key)?;
    Ok(one(Opcode::Const, index))
}

/// An instruction with a name, and a count.
fn named(lists: &Lists, opcode: Opcode, name: BindingId, count: u32) -> Result<Instr, Refusal>
    ensures { IfOk result (λ instruction. instruction ≡ tables.two opcode
        (index_in is_same_binding name (tables_in lists.now).names) count) }
{
    let index = name_index(lists, name)?;
    Ok(two(opcode, index, count))
}

/// An instruction at a place.
pub(crate) fn write(lists: &Lists, place: usize, flat: Flat) -> Result<Instr, Refusal>
    ensures { IfOk result (λ instruction. instruction
        ≡ written (tables_in lists.now) (placed place (seen flat.entry))) }
{
    match flat {
        Flat::Const(literal) => constant(lists, LiteralKey::Written(literal)),
        Flat::Truth(value) => constant(lists, LiteralKey::Truth(value)),
        Flat::Number(value) => constant(lists, LiteralKey::Number(value)),
        Flat::Local(local) => Ok(one(Opcode::Local, local)),
        Flat::SetLocal(local) => Ok(one(Opcode::SetLocal, local)),
        Flat::NewCell(local) => Ok(one(Opcode::NewCell, local)),
        Flat::CellGet(local) => Ok(one(Opcode::CellGet, local)),
        Flat::CellSet(local) => Ok(one(Opcode::CellSet, local)),
        Flat::Free(capture) => Ok(one(Opcode::Free, capture)),
        Flat::FreeGet(capture) => Ok(one(Opcode::FreeGet, capture)),
        Flat::FreeSet(capture) => Ok(one(Opcode::FreeSet, capture)),
        Flat::Global(name) => named(lists, Opcode::Global, name, 0),
        Flat::SetGlobal(name) => named(lists, Opcode::SetGlobal, name, 0),
        Flat::Push => Ok(none(Opcode::Push)),
        Flat::Jump(distance) => Ok(one(Opcode::Jump, address(place, distance)?)),
        Flat::JumpFalse(distance) => Ok(one(Opcode::JumpFalse, address(place, distance)?)),
        Flat::Tick => Ok(none(Opcode::Tick)),
        Flat::Closure(body, count) => Ok(two(Opcode::Closure, body, count)),
        Flat::Search(generic, count) => {
            named(lists, Opcode::Search, generic_named(generic), count)
        }
        Flat::CallKnown(name, count) => named(lists, Opcode::CallKnown, name, count),
        Flat::CallValue(count) => Ok(one(Opcode::CallValue, count)),
        Flat::Return => Ok(none(Opcode::Return)),
        Flat::Values(count) => Ok(one(Opcode::Values, count)),
        Flat::Spread(count, collects) => Ok(two(Opcode::Spread, count, flag(collects))),
        Flat::CheckResults(results) => {
            Ok(one(Opcode::CheckResults, results_index(lists, results)?))
        }
        Flat::Op(operation, count) => Ok(two(Opcode::Op, u32::from(operation), count)),
        Flat::Handle(condition) => Ok(one(Opcode::Handle, type_index(lists, condition)?)),
        Flat::Unhandle(count) => Ok(one(Opcode::Unhandle, count)),
        Flat::Save => Ok(none(Opcode::Save)),
        Flat::Restore => Ok(none(Opcode::Restore)),
        Flat::NoMatch => Ok(one(Opcode::Fault, 0)),
        Flat::Args(params) => Ok(one(Opcode::Args, params_index(lists, params)?)),
    }
}
