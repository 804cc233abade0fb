//! What stands behind the turns of a loop.

ghost use Rattle.std.specs.Prelude.{◌≡◌, ◌∷◌, ◌+◌, pos, IfOk, OnOk, length};
ghost use Rattle.dy_code.specs.Fetching as instr;
ghost use Rattle.dy_lowered.specs.Flat.{Plain, Jump};
ghost use Rattle.dy_lower_parts.specs.Seen.{seen_code};

use crate::operands::plus;
use dy_lower_parts::{Buffer, Flat, Refusal};

/// From how many last instructions on a loop that counts goes on where it is left: with its number
/// among the operands, and without.
#[derive(Clone, Copy)]
pub struct Ends {
    pub with_number: usize,
    pub without: usize,
}

/// The hidden operands of a loop that counts are taken away, and one more. In front of that comes
/// what becomes the jump back.
pub fn put_counted_end(hidden: u32, code: &mut Buffer) -> Result<Ends, Refusal>
    ensures code { OnOk result (seen_code code.new
        ≡ Jump (pos 0) ∷ Plain instr.Push ∷ Plain (instr.Values (hidden + 1))
        ∷ seen_code code.old) }
    ensures ends { IfOk result (λ ends. ends ≡ record {
      with_number = length (seen_code code.old) + 1;
      without = length (seen_code code.old) + 2;
    }) }
{
    let count = plus(hidden, 1)?;
    code.put(Flat::Values(count))?;
    let with_number = code.len();
    code.put(Flat::Push)?;
    let without = code.len();
    code.put(Flat::Jump(0))?;
    Ok(Ends {
        with_number,
        without,
    })
}

/// The operands of a loop of any clauses are taken away. In front of that comes what becomes the
/// jump back. Tells how many instructions come behind that.
pub fn put_turns_end(count: u32, code: &mut Buffer) -> Result<usize, Refusal>
    ensures code { OnOk result (seen_code code.new
        ≡ Jump (pos 0) ∷ Plain (instr.Values count) ∷ seen_code code.old) }
    ensures exit { IfOk result (λ exit. exit ≡ length (seen_code code.old) + 1) }
{
    code.put(Flat::Values(count))?;
    let exit = code.len();
    code.put(Flat::Jump(0))?;
    Ok(exit)
}
