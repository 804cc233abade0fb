//! Whether a clause of any loop has come to its end.

ghost use Rattle.std.specs.Prelude.{◌≡◌, ◌++◌, ◌-◌, pos, OnOk, length};
ghost use Rattle.dy_lowered.specs.Parts.{choice};
ghost use Rattle.dy_lowered.specs.Turns.{number, less, its_step, lower_bound, upper_bound};
ghost use Rattle.dy_lowered.specs.Turns.{limit_reached};
ghost use Rattle.dy_lower_parts.specs.Seen.{seen_code};

use crate::leaving::put_leaving;
use crate::operands::{its_bound, its_number, its_step, plus};
use crate::operations::{COMPARISON, Source, put_on_both};
use dy_lower_parts::{Buffer, Refusal, put_jump, put_test};
use dy_term::Limit;

/// Whether the bound is less than the number.
fn put_lower_bound(above: u32, code: &mut Buffer) -> Result<(), Refusal>
    ensures { OnOk result (seen_code code.new ≡ lower_bound above ++ seen_code code.old) }
{
    let bound = its_bound(above)?;
    let number = its_number(plus(above, 1)?)?;
    put_on_both(COMPARISON, bound, number, code)?;
    Ok(())
}

/// Whether the bound is greater than the number.
fn put_upper_bound(above: u32, code: &mut Buffer) -> Result<(), Refusal>
    ensures { OnOk result (seen_code code.new ≡ upper_bound above ++ seen_code code.old) }
{
    let number = its_number(above)?;
    let bound = its_bound(plus(above, 1)?)?;
    put_on_both(COMPARISON, number, bound, code)?;
    Ok(())
}

/// Whether a clause counts down.
pub(crate) fn put_downward(above: u32, code: &mut Buffer) -> Result<(), Refusal>
    ensures { OnOk result (seen_code code.new
        ≡ less (its_step above) (number (pos 0)) ++ seen_code code.old) }
{
    let step = its_step(above)?;
    put_on_both(COMPARISON, step, Source::Number(0), code)?;
    Ok(())
}

/// Whether the number is past the bound, in the direction of the step.
fn put_past_bound(above: u32, code: &mut Buffer) -> Result<(), Refusal>
    ensures { OnOk result (seen_code code.new
        ≡ choice (less (its_step above) (number (pos 0))) (upper_bound above) (lower_bound above)
        ++ seen_code code.old) }
{
    let base = code.len();
    put_lower_bound(above, code)?;
    let other = code.len();
    put_jump(base, code)?;
    put_upper_bound(above, code)?;
    put_test(other, code)?;
    put_downward(above, code)?;
    Ok(())
}

/// The loop is left for so many last instructions where the clause has come to its end.
pub(crate) fn put_limit_reached(
    limit: Limit,
    above: u32,
    exit: usize,
    code: &mut Buffer,
) -> Result<(), Refusal>
    ensures { OnOk result (seen_code code.new
        ≡ limit_reached limit above (length (seen_code code.old) - exit) ++ seen_code code.old) }
{
    match limit {
        Limit::To => {
            put_leaving(true, exit, code)?;
            put_past_bound(above, code)?;
            Ok(())
        }
        Limit::Above => {
            put_leaving(false, exit, code)?;
            put_lower_bound(above, code)?;
            Ok(())
        }
        Limit::Below => {
            put_leaving(false, exit, code)?;
            put_upper_bound(above, code)?;
            Ok(())
        }
    }
}
