//! What a loop has beside its test and what it repeats.

ghost use Rattle.std.specs.Prelude.{◌≡◌, ◌∷◌, ◌++◌, ◌+◌, ◌-◌, pos, false, IfOk, OnOk, length};
ghost use Rattle.dy_code.specs.Fetching as instr;
ghost use Rattle.dy_lowered.specs.Flat.{Plain, Jump, past_if_false};
ghost use Rattle.dy_lowered.specs.Parts.{truth};
ghost use Rattle.dy_lower_parts.specs.Seen.{seen_code};

use crate::buffer::Buffer;
use crate::flat::Flat;
use crate::jumps::put_test;
use crate::refusal::Refusal;

/// The value of a loop, and in front of it what becomes the jump back. Tells how many instructions
/// come behind that.
pub fn put_loop_end(code: &mut Buffer) -> Result<usize, Refusal>
    ensures code { OnOk result (seen_code code.new
        ≡ Jump (pos 0) ∷ (truth false ++ seen_code code.old)) }
    ensures end { IfOk result (λ end. end ≡ length (truth false ++ seen_code code.old)) }
{
    code.put(Flat::Truth(false))?;
    let end = code.len();
    code.put(Flat::Jump(0))?;
    Ok(end)
}

/// Where the test holds, a unit passes and what is there already comes next; else it is passed
/// over, but for so many last instructions.
pub fn put_loop_test(end: usize, code: &mut Buffer) -> Result<(), Refusal>
    ensures { OnOk result (seen_code code.new
        ≡ past_if_false (length (seen_code code.old) + 1 - end)
        ∷ Plain instr.Tick ∷ seen_code code.old) }
{
    code.put(Flat::Tick)?;
    put_test(end, code)?;
    Ok(())
}
