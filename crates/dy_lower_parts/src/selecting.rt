//! How a `select` compares.

ghost use Rattle.std.specs.Prelude.{◌≡◌, ◌∷◌, ◌++◌, ◌-◌, OnOk, length};
ghost use Rattle.dy_code.specs.Fetching as instr;
ghost use Rattle.dy_lowered.specs.Flat.{Plain, past, past_if_false};
ghost use Rattle.dy_lower_parts.specs.Seen.{seen, seen_code, seen_comparing};

use crate::buffer::Buffer;
use crate::flat::Flat;
use crate::jumps::put_jump;
use crate::refusal::Refusal;

/// How a `select` compares: by `==`, or by a function that lies under the value.
#[derive(Clone, Copy)]
pub enum Comparing {
    Identity,
    Function,
}

/// The number of the built-in function `==`.
const IDENTITY: u16 = 28;

/// The call that compares.
fn call_of<'a>(by: Comparing) -> Flat<'a>
    ensures { seen result ≡ Plain (seen_comparing by).call }
{
    match by {
        Comparing::Identity => Flat::Op(IDENTITY, 2),
        Comparing::Function => Flat::CallValue(2),
    }
}

/// What lies among the operands for the comparing is taken away.
fn away_of<'a>(by: Comparing) -> Flat<'a>
    ensures { seen result ≡ Plain (seen_comparing by).away }
{
    match by {
        Comparing::Identity => Flat::Values(1),
        Comparing::Function => Flat::Values(2),
    }
}

/// What lies there is laid there once more.
pub fn put_again(by: Comparing, code: &mut Buffer) -> Result<(), Refusal>
    ensures { OnOk result (seen_code code.new
        ≡ (seen_comparing by).again ++ seen_code code.old) }
{
    match by {
        Comparing::Identity => {
            code.put(Flat::Push)?;
            code.put(Flat::Push)?;
            code.put(Flat::Values(1))?;
            Ok(())
        }
        Comparing::Function => {
            code.put(Flat::Spread(2, false))?;
            code.put(Flat::Spread(2, false))?;
            code.put(Flat::Values(2))?;
            Ok(())
        }
    }
}

/// The value and what lies under it are taken away, since an arm is chosen or none is.
pub fn put_away(by: Comparing, code: &mut Buffer) -> Result<(), Refusal>
    ensures { OnOk result (seen_code code.new
        ≡ Plain (seen_comparing by).away ∷ seen_code code.old) }
{
    code.put(away_of(by))?;
    Ok(())
}

/// The value of an arm is compared. Where it is not met, what is there already comes next; else
/// that is passed over, but for so many last instructions.
pub fn put_comparison(by: Comparing, mark: usize, code: &mut Buffer) -> Result<(), Refusal>
    ensures { OnOk result (seen_code code.new
        ≡ Plain instr.Push ∷ Plain (seen_comparing by).call ∷ past_if_false 1
        ∷ past (length (seen_code code.old) - mark) ∷ seen_code code.old) }
{
    put_jump(mark, code)?;
    code.put(Flat::JumpFalse(1))?;
    code.put(call_of(by))?;
    code.put(Flat::Push)?;
    Ok(())
}

/// What the register holds becomes an operand, and the value that waited lies on top of it.
pub fn put_restored(code: &mut Buffer) -> Result<(), Refusal>
    ensures { OnOk result (seen_code code.new
        ≡ Plain instr.Push ∷ Plain instr.Restore ∷ Plain instr.Push ∷ seen_code code.old) }
{
    code.put(Flat::Push)?;
    code.put(Flat::Restore)?;
    code.put(Flat::Push)?;
    Ok(())
}
