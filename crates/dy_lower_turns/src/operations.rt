//! Built-in operations on integers.

ghost use Rattle.std.specs.Prelude.{◌≡◌, ◌++◌, OnOk};
ghost use Rattle.dy_lowered.specs.Turns.{operand, on_both, with_number};
ghost use Rattle.dy_lower_parts.specs.Seen.{seen_code};
ghost use Rattle.dy_lower_turns.specs.Pieces.{source_code, with_second, checked, denied};

use dy_lower_parts::{Buffer, Flat, Refusal};

/// What an operation takes: a number, or an operand by its place.
#[derive(Clone, Copy)]
pub(crate) enum Source {
    Number(i64),
    /// The topmost one has the place 1.
    Operand(u32),
}

/// The numbers of the operations.
pub(crate) const ADDITION: u16 = 0;

pub(crate) const MULTIPLICATION: u16 = 2;

pub(crate) const COMPARISON: u16 = 4;

pub(crate) const IDENTITY: u16 = 28;

const OPPOSITE: u16 = 29;

/// An operand becomes the first value, and all operands stay.
pub(crate) fn put_operand(place: u32, code: &mut Buffer) -> Result<(), Refusal>
    ensures { OnOk result (seen_code code.new ≡ operand place ++ seen_code code.old) }
{
    code.put(Flat::Spread(place, false))?;
    code.put(Flat::Values(place))?;
    Ok(())
}

/// What an operation takes becomes the first value.
pub(crate) fn put_source(source: Source, code: &mut Buffer) -> Result<(), Refusal>
    ensures { OnOk result (seen_code code.new ≡ source_code source ++ seen_code code.old) }
{
    match source {
        Source::Number(value) => {
            code.put(Flat::Number(value))?;
            Ok(())
        }
        Source::Operand(place) => {
            put_operand(place, code)?;
            Ok(())
        }
    }
}

/// The second value of an operation, and the operation, behind what gives the first one.
pub(crate) fn put_second(operation: u16, second: Source, code: &mut Buffer) -> Result<(), Refusal>
    ensures { OnOk result (seen_code code.new
        ≡ with_second operation (source_code second) ++ seen_code code.old) }
{
    code.put(Flat::Op(operation, 2))?;
    code.put(Flat::Push)?;
    put_source(second, code)?;
    code.put(Flat::Push)?;
    Ok(())
}

/// An operation of two values.
pub(crate) fn put_on_both(
    operation: u16,
    first: Source,
    second: Source,
    code: &mut Buffer,
) -> Result<(), Refusal>
    ensures { OnOk result (seen_code code.new
        ≡ on_both operation (source_code first) (source_code second) ++ seen_code code.old) }
{
    put_second(operation, second, code)?;
    put_source(first, code)?;
    Ok(())
}

/// An operation of the topmost operand and a number.
pub(crate) fn put_with_number(operation: u16, value: i64, code: &mut Buffer) -> Result<(), Refusal>
    ensures { OnOk result (seen_code code.new
        ≡ with_number operation value ++ seen_code code.old) }
{
    code.put(Flat::Op(operation, 2))?;
    code.put(Flat::Push)?;
    code.put(Flat::Number(value))?;
    Ok(())
}

/// The opposite of a truth, behind what gives it.
pub(crate) fn put_denied(code: &mut Buffer) -> Result<(), Refusal>
    ensures { OnOk result (seen_code code.new ≡ denied ++ seen_code code.old) }
{
    code.put(Flat::Op(OPPOSITE, 1))?;
    code.put(Flat::Push)?;
    Ok(())
}

/// That the first value is an integer, behind what evaluates it.
pub fn put_checked(code: &mut Buffer) -> Result<(), Refusal>
    ensures { OnOk result (seen_code code.new ≡ checked ++ seen_code code.old) }
{
    code.put(Flat::Values(1))?;
    put_with_number(COMPARISON, 0, code)?;
    code.put(Flat::Push)?;
    code.put(Flat::Push)?;
    Ok(())
}
