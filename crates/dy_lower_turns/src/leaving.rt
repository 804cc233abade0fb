//! How a loop is left.

ghost use Rattle.std.specs.Prelude.{◌≡◌, ◌++◌, ◌-◌, OnOk, length};
ghost use Rattle.dy_lowered.specs.Turns.{leaves_if};
ghost use Rattle.dy_lower_parts.specs.Seen.{seen_code};

use dy_lower_parts::{Buffer, Flat, Refusal, put_jump, put_test};

/// The loop is left for so many last instructions, where the first value is true, or where it is
/// `#f`.
pub fn put_leaving(leaves: bool, exit: usize, code: &mut Buffer) -> Result<(), Refusal>
    ensures { OnOk result (seen_code code.new
        ≡ leaves_if leaves (length (seen_code code.old) - exit) ++ seen_code code.old) }
{
    if leaves {
        put_jump(exit, code)?;
        code.put(Flat::JumpFalse(1))?;
        Ok(())
    } else {
        put_test(exit, code)?;
        Ok(())
    }
}
