//! How a clause of any loop counts on.

ghost use Rattle.std.specs.Prelude.{◌≡◌, ◌++◌, ◌+◌, ℕ, pos, Option, OnOk, length};
ghost use Rattle.dy_term.specs.declared.term.Limit.{Limit};
ghost use Rattle.dy_outcome.specs.declared.place.Place.{Place};
ghost use Rattle.dy_lowered.specs.Flat.{Code};
ghost use Rattle.dy_lowered.specs.Terms.{known_or};
ghost use Rattle.dy_lowered.specs.Turns.{Amount, Known, Given, Counts, number, less, on_both};
ghost use Rattle.dy_lowered.specs.Turns.{addition, against, negated, overflows, advancing};
ghost use Rattle.dy_lowered.specs.Turns.{its_step, its_number, least_number, greatest_number};
ghost use Rattle.dy_lower_parts.specs.Seen.{seen_code};
ghost use Rattle.dy_lower_turns.specs.Pieces.{from_opposite};

use crate::bounds::put_downward;
use crate::operands::{its_number, its_step, plus, put_counted_on};
use crate::operations::{
    ADDITION, COMPARISON, MULTIPLICATION, Source, put_denied, put_on_both, put_second, put_source,
};
use dy_lower_parts::{Buffer, Flat, Refusal, put_jump, put_test};

/// The opposite of the first value, and a number more.
fn put_from_opposite(value: i64, code: &mut Buffer) -> Result<(), Refusal>
    ensures { OnOk result (seen_code code.new ≡ from_opposite value ++ seen_code code.old) }
{
    put_second(ADDITION, Source::Number(value), code)?;
    put_second(MULTIPLICATION, Source::Number(-1), code)?;
    Ok(())
}

/// Whether the next number is too low, by a step that is less than 0.
fn put_too_low(above: u32, code: &mut Buffer) -> Result<(), Refusal>
    ensures { OnOk result (seen_code code.new ≡ negated
        (less (against (on_both addition (its_step above) (number (pos 1))) least_number)
        (its_number (above + 1))) ++ seen_code code.old) }
{
    let number = its_number(plus(above, 1)?)?;
    let step = its_step(above)?;
    put_denied(code)?;
    put_second(COMPARISON, number, code)?;
    put_from_opposite(i64::MIN, code)?;
    put_on_both(ADDITION, step, Source::Number(1), code)?;
    Ok(())
}

/// Whether the next number is too high, by a step that is not less than 0.
fn put_too_high(above: u32, code: &mut Buffer) -> Result<(), Refusal>
    ensures { OnOk result (seen_code code.new
        ≡ less (against (its_step above) greatest_number) (its_number (above + 1))
        ++ seen_code code.old) }
{
    let number = its_number(plus(above, 1)?)?;
    let step = its_step(above)?;
    put_second(COMPARISON, number, code)?;
    put_from_opposite(i64::MAX, code)?;
    put_source(step, code)?;
    Ok(())
}

/// Whether the next number has no 64 bits, by a step that is evaluated.
fn put_given_overflows(above: u32, code: &mut Buffer) -> Result<(), Refusal>
    ensures { OnOk result ((given : Code) → seen_code code.new
        ≡ overflows (Given given) above ++ seen_code code.old) }
{
    let base = code.len();
    put_too_high(above, code)?;
    let other = code.len();
    put_jump(base, code)?;
    put_too_low(above, code)?;
    put_test(other, code)?;
    put_downward(above, code)?;
    Ok(())
}

/// Whether the next number has no 64 bits, by a step that is known.
fn put_known_overflows(step: i64, above: u32, code: &mut Buffer) -> Result<(), Refusal>
    ensures { OnOk result (seen_code code.new
        ≡ overflows (Known step) above ++ seen_code code.old) }
{
    if step < 0 {
        let least = Source::Number(i64::MIN - step);
        put_on_both(COMPARISON, its_number(above)?, least, code)?;
        Ok(())
    } else {
        let greatest = Source::Number(i64::MAX - step);
        put_on_both(COMPARISON, greatest, its_number(plus(above, 1)?)?, code)?;
        Ok(())
    }
}

/// Whether the next number has no 64 bits, by a step that may be known.
fn put_overflows(step: Option<i64>, above: u32, code: &mut Buffer) -> Result<(), Refusal>
    ensures { OnOk result ((given : Code) → seen_code code.new
        ≡ overflows (known_or step given) above ++ seen_code code.old) }
{
    match step {
        Some(step) => {
            put_known_overflows(step, above, code)?;
            Ok(())
        }
        None => {
            put_given_overflows(above, code)?;
            Ok(())
        }
    }
}

/// A clause that counts goes on, or leaves the loop for so many last instructions. So many operands
/// are of the next turn already.
pub fn put_counting_on(
    step: Option<i64>,
    before: u32,
    above: u32,
    exit: usize,
    code: &mut Buffer,
) -> Result<(), Refusal>
    ensures { OnOk result ((place : Place) (start given : Code) (limit : Option (Limit × Amount))
        (far : ℕ) → far + exit ≡ length (seen_code code.old) → seen_code code.new
        ≡ advancing (Counts place start limit (known_or step given)) before above far
        ++ seen_code code.old) }
{
    put_counted_on(above, code)?;
    put_jump(exit, code)?;
    code.put(Flat::Values(before))?;
    code.put(Flat::JumpFalse(2))?;
    put_overflows(step, above, code)?;
    Ok(())
}
