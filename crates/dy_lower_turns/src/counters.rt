//! How the clause of a fast loop is tested and goes on.

ghost use Rattle.std.specs.Prelude.{◌≡◌, ◌∷◌, ◌++◌, ◌+◌, ◌-◌, ℕ, [], pos, int_lt, OnOk, length};
ghost use Rattle.std.specs.Prelude.{if◌then◌else◌};
ghost use Rattle.dy_code.specs.Fetching as instr;
ghost use Rattle.dy_lowered.specs.Flat.{Code, Plain, one};
ghost use Rattle.dy_lowered.specs.Parts.{read, put, cell};
ghost use Rattle.dy_lowered.specs.Terms.{known_or};
ghost use Rattle.dy_lowered.specs.Turns.{bound_below, bound_above, limit_test, top_less, room_for};
ghost use Rattle.dy_lowered.specs.Turns.{Given, again, raised, up_to, meeting, comparison};
ghost use Rattle.dy_lower_parts.specs.Seen.{seen_code};
ghost use Rattle.dy_lower_turns.specs.Ways.{seen_counting, raised_for};

use crate::counting::Counting;
use crate::leaving::put_leaving;
use crate::operations::{ADDITION, COMPARISON, IDENTITY, put_with_number};
use dy_lower_parts::{Buffer, Flat, Refusal, put_cell, put_jump, put_local, put_test, read};
use dy_outcome::Place;
use dy_term::Limit;

/// What lies on top becomes the first value, stays there, and lies there once more.
fn put_top_again(code: &mut Buffer) -> Result<(), Refusal>
    ensures { OnOk result (seen_code code.new ≡ Plain (instr.Values 1) ∷ Plain instr.Push
        ∷ Plain instr.Push ∷ seen_code code.old) }
{
    code.put(Flat::Push)?;
    code.put(Flat::Push)?;
    code.put(Flat::Values(1))?;
    Ok(())
}

/// Whether the bound, which may be known, is less than the number.
fn put_bound_below(bound: Option<i64>, place: Place, code: &mut Buffer) -> Result<(), Refusal>
    ensures { OnOk result ((given : Code) → seen_code code.new
        ≡ bound_below (known_or bound given) place ++ seen_code code.old) }
{
    code.put(Flat::Op(COMPARISON, 2))?;
    code.put(Flat::Push)?;
    code.put(read(place))?;
    match bound {
        Some(bound) => {
            code.put(Flat::Push)?;
            code.put(Flat::Number(bound))?;
            Ok(())
        }
        None => {
            put_top_again(code)?;
            Ok(())
        }
    }
}

/// Whether the number is less than the bound, which is the topmost operand.
fn put_given_above(place: Place, code: &mut Buffer) -> Result<(), Refusal>
    ensures { OnOk result ((given : Code) → seen_code code.new
        ≡ bound_above (Given given) place ++ seen_code code.old) }
{
    code.put(Flat::Op(COMPARISON, 2))?;
    code.put(Flat::Push)?;
    code.put(Flat::Restore)?;
    code.put(Flat::Push)?;
    code.put(read(place))?;
    code.put(Flat::Save)?;
    code.put(Flat::Push)?;
    code.put(Flat::Values(1))?;
    Ok(())
}

/// Whether the number is less than the bound, which may be known.
fn put_bound_above(bound: Option<i64>, place: Place, code: &mut Buffer) -> Result<(), Refusal>
    ensures { OnOk result ((given : Code) → seen_code code.new
        ≡ bound_above (known_or bound given) place ++ seen_code code.old) }
{
    match bound {
        Some(bound) => {
            put_with_number(COMPARISON, bound, code)?;
            code.put(Flat::Push)?;
            Ok(())
        }
        None => {
            put_given_above(place, code)?;
            Ok(())
        }
    }
}

/// Whether the number is past the bound, in the direction of the step.
fn put_past_bound(
    step: i64,
    bound: Option<i64>,
    place: Place,
    code: &mut Buffer,
) -> Result<(), Refusal>
    ensures { OnOk result ((given : Code) → seen_code code.new
        ≡ (if int_lt step (pos 0) then bound_above (known_or bound given) place
        else bound_below (known_or bound given) place) ++ seen_code code.old) }
{
    if step < 0 {
        put_bound_above(bound, place, code)?;
        Ok(())
    } else {
        put_bound_below(bound, place, code)?;
        Ok(())
    }
}

/// The loop is left for so many last instructions where its clause has come to its end.
fn put_limit_test(
    step: i64,
    limit: (Limit, Option<i64>),
    place: Place,
    exit: usize,
    code: &mut Buffer,
) -> Result<(), Refusal>
    ensures { OnOk result ((given : Code) → seen_code code.new
        ≡ limit_test step limit.0 (known_or limit.1 given) place
        (length (seen_code code.old) - exit) ++ seen_code code.old) }
{
    let (kind, bound) = limit;
    match kind {
        Limit::To => {
            put_leaving(true, exit, code)?;
            put_past_bound(step, bound, place, code)?;
            Ok(())
        }
        Limit::Above => {
            put_leaving(false, exit, code)?;
            put_bound_below(bound, place, code)?;
            Ok(())
        }
        Limit::Below => {
            put_leaving(false, exit, code)?;
            put_bound_above(bound, place, code)?;
            Ok(())
        }
    }
}

/// The loop is left for so many last instructions where the number is not below a known bound.
fn put_up_to_test(bound: i64, place: Place, exit: usize, code: &mut Buffer) -> Result<(), Refusal>
    ensures { OnOk result ((start : Code) → seen_code code.new
        ≡ (up_to start bound).testing place (length (seen_code code.old) - exit)
        ++ seen_code code.old) }
{
    put_leaving(false, exit, code)?;
    put_with_number(COMPARISON, bound, code)?;
    code.put(Flat::Push)?;
    Ok(())
}

/// The loop is left for so many last instructions where the number has met the bound.
fn put_meeting_test(place: Place, exit: usize, code: &mut Buffer) -> Result<(), Refusal>
    ensures { OnOk result ((start given : Code) → seen_code code.new
        ≡ (meeting start given).testing place (length (seen_code code.old) - exit)
        ++ seen_code code.old) }
{
    put_leaving(true, exit, code)?;
    code.put(Flat::Op(IDENTITY, 2))?;
    code.put(Flat::Push)?;
    code.put(read(place))?;
    put_top_again(code)?;
    Ok(())
}

/// The test of a clause.
fn put_testing(
    counting: Counting,
    place: Place,
    exit: usize,
    code: &mut Buffer,
) -> Result<(), Refusal>
    ensures { OnOk result ((start given : Code) → seen_code code.new
        ≡ (seen_counting counting start given).testing place (length (seen_code code.old) - exit)
        ++ seen_code code.old) }
{
    match counting {
        Counting::Stepping(None, _) => Ok(()),
        Counting::Stepping(Some(limit), step) => {
            put_limit_test(step, limit, place, exit, code)?;
            Ok(())
        }
        Counting::UpTo(bound) => {
            put_up_to_test(bound, place, exit, code)?;
            Ok(())
        }
        Counting::Meeting => {
            put_meeting_test(place, exit, code)?;
            Ok(())
        }
    }
}

/// A turn begins: the variable is bound to the number, the clause is tested, and the number becomes
/// an operand.
pub fn put_counted_turn(
    counting: Counting,
    place: Place,
    exit: usize,
    code: &mut Buffer,
) -> Result<(), Refusal>
    ensures { OnOk result ((start given : Code) (far : ℕ)
        → far + exit ≡ length (seen_code code.old) → seen_code code.new
        ≡ put place ++ (cell place ++ ((seen_counting counting start given).testing place
        (length (read place ++ Plain instr.Push ∷ []) + far)
        ++ (read place ++ (Plain instr.Push ∷ seen_code code.old))))) }
{
    code.put(Flat::Push)?;
    code.put(read(place))?;
    put_testing(counting, place, exit, code)?;
    put_cell(place, code)?;
    put_local(place, code)?;
    Ok(())
}

/// Whether the topmost operand, which stays there, is less than a number.
fn put_top_less(value: i64, code: &mut Buffer) -> Result<(), Refusal>
    ensures { OnOk result (seen_code code.new ≡ top_less value ++ seen_code code.old) }
{
    put_with_number(COMPARISON, value, code)?;
    put_top_again(code)?;
    Ok(())
}

/// The loop is left for so many last instructions where the next number has no 64 bits.
fn put_room(step: i64, exit: usize, code: &mut Buffer) -> Result<(), Refusal>
    ensures { OnOk result (seen_code code.new
        ≡ room_for step (length (seen_code code.old) - exit) ++ seen_code code.old) }
{
    if step > 0 {
        put_leaving(false, exit, code)?;
        put_top_less(i64::MAX - (step - 1), code)?;
        Ok(())
    } else if step < 0 {
        put_leaving(true, exit, code)?;
        put_top_less(i64::MIN - step, code)?;
        Ok(())
    } else {
        Ok(())
    }
}

/// The clause goes on, or leaves the loop for so many last instructions.
pub fn put_advancing(counting: Counting, exit: usize, code: &mut Buffer) -> Result<(), Refusal>
    ensures { OnOk result ((start given : Code) (far : ℕ)
        → far + exit ≡ length (seen_code code.old) → seen_code code.new
        ≡ (seen_counting counting start given).advancing far ++ seen_code code.old) }
{
    match counting {
        Counting::Stepping(_, step) => {
            put_with_number(ADDITION, step, code)?;
            put_room(step, exit, code)?;
            Ok(())
        }
        _ => {
            put_with_number(ADDITION, 1, code)?;
            Ok(())
        }
    }
}

/// Whether the bound, which lies on the number, is greater than it. Both stay there.
fn put_is_lower(code: &mut Buffer) -> Result<(), Refusal>
    ensures { OnOk result (seen_code code.new
        ≡ (again 2 ++ one (instr.Op comparison 2)) ++ seen_code code.old) }
{
    code.put(Flat::Op(COMPARISON, 2))?;
    code.put(Flat::Spread(2, false))?;
    code.put(Flat::Spread(2, false))?;
    code.put(Flat::Values(2))?;
    Ok(())
}

/// The bound becomes the number where it is less, so that the number meets it.
fn put_raised(code: &mut Buffer) -> Result<(), Refusal>
    ensures { OnOk result (seen_code code.new ≡ raised ++ seen_code code.old) }
{
    let base = code.len();
    code.put(Flat::Restore)?;
    code.put(Flat::Values(1))?;
    let other = code.len();
    put_jump(base, code)?;
    code.put(Flat::Push)?;
    code.put(Flat::Restore)?;
    code.put(Flat::Values(2))?;
    put_test(other, code)?;
    put_is_lower(code)?;
    code.put(Flat::Push)?;
    code.put(Flat::Save)?;
    Ok(())
}

/// What is done with the bound before the first turn, behind what evaluates it.
pub fn put_raised_for(counting: Counting, code: &mut Buffer) -> Result<(), Refusal>
    ensures { OnOk result (seen_code code.new ≡ raised_for counting ++ seen_code code.old) }
{
    match counting {
        Counting::Meeting => {
            put_raised(code)?;
            Ok(())
        }
        _ => Ok(()),
    }
}
