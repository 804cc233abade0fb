//! What takes arguments.

ghost use Rattle.std.specs.Prelude.{◌≡◌, ◌∷◌, IfOk, OnOk, length};
ghost use Rattle.dy_code.specs.Fetching as instr;
ghost use Rattle.dy_lowered.specs.Flat.{Plain};
ghost use Rattle.dy_lower_parts.specs.Seen.{seen_code};

use crate::buffer::{Buffer, count};
use crate::flat::Flat;
use crate::refusal::Refusal;
use dy_base::{BindingId, GenericId, Items};
use dy_term::Term;

/// How many arguments there are.
fn count_of(terms: &Items<Term>) -> Result<u32, Refusal>
    ensures { IfOk result (λ count. count ≡ length terms.now) }
{
    count(terms.len())
}

/// The call of a function by its name.
pub fn put_known_call(
    named: BindingId,
    terms: &Items<Term>,
    code: &mut Buffer,
) -> Result<(), Refusal>
    ensures { OnOk result (seen_code code.new
        ≡ Plain (instr.CallKnown named (length terms.now)) ∷ seen_code code.old) }
{
    code.put(Flat::CallKnown(named, count_of(terms)?))?;
    Ok(())
}

/// The call of the function that lies under the arguments.
pub fn put_value_call(terms: &Items<Term>, code: &mut Buffer) -> Result<(), Refusal>
    ensures { OnOk result (seen_code code.new
        ≡ Plain (instr.CallValue (length terms.now)) ∷ seen_code code.old) }
{
    code.put(Flat::CallValue(count_of(terms)?))?;
    Ok(())
}

/// The call of a generic function.
pub fn put_search(generic: GenericId, terms: &Items<Term>, code: &mut Buffer) -> Result<(), Refusal>
    ensures { OnOk result (seen_code code.new
        ≡ Plain (instr.Search generic (length terms.now)) ∷ seen_code code.old) }
{
    code.put(Flat::Search(generic, count_of(terms)?))?;
    Ok(())
}

/// The call of an operation that is built in.
pub fn put_operation(operation: u16, terms: &Items<Term>, code: &mut Buffer) -> Result<(), Refusal>
    ensures { OnOk result (seen_code code.new
        ≡ Plain (instr.Op operation (length terms.now)) ∷ seen_code code.old) }
{
    code.put(Flat::Op(operation, count_of(terms)?))?;
    Ok(())
}
