//! The operands that a clause counts with.

ghost use Rattle.std.specs.Prelude.{◌≡◌, ◌++◌, ◌+◌, IfOk, OnOk};
ghost use Rattle.dy_lowered.specs.Turns.{its_step, its_bound, its_number, counted_on, renewed};
ghost use Rattle.dy_lower_parts.specs.Seen.{seen_code};
ghost use Rattle.dy_lower_turns.specs.Pieces.{source_code};

use crate::operations::{ADDITION, Source, put_on_both, put_source};
use dy_lower_parts::{Buffer, Flat, Refusal};

/// A number of operands, and so many more. So many operands are never there that it is an error.
pub fn plus(count: u32, more: u32) -> Result<u32, Refusal>
    ensures { IfOk result (λ sum. sum ≡ count + more) }
{
    match count.checked_add(more) {
        Some(sum) => Ok(sum),
        None => Err(Refusal::Memory),
    }
}

/// A number of operands without so many. There are never fewer of them, so it is no error.
pub fn minus(count: u32, less: u32) -> Result<u32, Refusal>
    ensures { IfOk result (λ left. left + less ≡ count) }
{
    match count.checked_sub(less) {
        Some(left) => Ok(left),
        None => Err(Refusal::Memory),
    }
}

/// The operand of this place behind so many that lie above.
fn behind(above: u32, place: u32) -> Result<Source, Refusal>
    ensures { IfOk result (λ source. source ≡ Source.Operand (above + place)) }
{
    let place = plus(above, place)?;
    Ok(Source::Operand(place))
}

/// The step of a clause.
pub(crate) fn its_step(above: u32) -> Result<Source, Refusal>
    ensures { IfOk result (λ source. source_code source ≡ its_step above) }
{
    let step = behind(above, 1)?;
    Ok(step)
}

/// The bound of a clause.
pub(crate) fn its_bound(above: u32) -> Result<Source, Refusal>
    ensures { IfOk result (λ source. source_code source ≡ its_bound above) }
{
    let bound = behind(above, 2)?;
    Ok(bound)
}

/// The number of a clause.
pub(crate) fn its_number(above: u32) -> Result<Source, Refusal>
    ensures { IfOk result (λ source. source_code source ≡ its_number above) }
{
    let number = behind(above, 3)?;
    Ok(number)
}

/// The operands of a clause for the next turn.
pub(crate) fn put_counted_on(above: u32, code: &mut Buffer) -> Result<(), Refusal>
    ensures { OnOk result (seen_code code.new ≡ counted_on above ++ seen_code code.old) }
{
    let one_more = plus(above, 1)?;
    let two_more = plus(above, 2)?;
    code.put(Flat::Push)?;
    put_source(its_step(two_more)?, code)?;
    code.put(Flat::Push)?;
    put_source(its_bound(one_more)?, code)?;
    code.put(Flat::Push)?;
    put_on_both(ADDITION, its_number(above)?, its_step(one_more)?, code)?;
    Ok(())
}

/// The topmost operands take the place of as many below them.
pub fn put_renewed(count: u32, code: &mut Buffer) -> Result<(), Refusal>
    ensures { OnOk result (seen_code code.new ≡ renewed count ++ seen_code code.old) }
{
    code.put(Flat::Spread(count, false))?;
    code.put(Flat::Restore)?;
    code.put(Flat::Values(count))?;
    code.put(Flat::Save)?;
    code.put(Flat::Values(count))?;
    Ok(())
}
