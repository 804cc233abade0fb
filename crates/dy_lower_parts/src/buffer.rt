//! Code that is made from its end.

ghost use Rattle.std.specs.Prelude.{◌≡◌, ◌∷◌, ◌++◌, ◌-◌, [], pos, negsuc, IfOk, OnOk, length};
ghost use Rattle.std.specs.Prelude.{map};
ghost use Rattle.dy_lowered.specs.Flat as flats;
ghost use Rattle.dy_lowered.specs.Flat.{Code};
ghost use Rattle.dy_lower_parts.specs.Seen.{seen, seen_code};

use crate::flat::Flat;
use crate::refusal::Refusal;
use std::alloc::Global;
use std::collections::VecDeque;

/// The last part of some code. Each instruction is put in front of those that are there, so the
/// distance of a jump is known when it is written.
#[derive(Drop)]
pub struct Buffer<'a> {
    flats: VecDeque<Flat<'a>>,
}

impl<'a> Buffer<'a> {
    /// No code yet.
    pub fn new(alloc: Global) -> Buffer<'a>
        ensures { seen_code result ≡ [] }
    {
        Buffer {
            flats: VecDeque::new(alloc),
        }
    }

    /// How many instructions there are.
    pub fn len(&self) -> usize
        ensures { result ≡ length (seen_code self.now) }
    {
        self.flats.len()
    }

    /// The instructions in order.
    pub fn flats(&self) -> &VecDeque<Flat<'a>>
        ensures { map seen result.now.items ≡ seen_code self.now }
    {
        &self.flats
    }

    /// Puts an instruction in front.
    pub fn put(&mut self, flat: Flat<'a>) -> Result<(), Refusal>
        ensures { OnOk result (seen_code self.new ≡ seen flat.entry ∷ seen_code self.old) }
    {
        match self.flats.push_front(flat) {
            Ok(()) => Ok(()),
            Err(_) => Err(Refusal::Memory),
        }
    }

    /// The instruction in front of so many last ones becomes a jump back to the first of all.
    pub fn repeat(&mut self, end: usize) -> Result<(), Refusal>
        ensures { OnOk result ((front back : Code) (old : flats.Flat) → length back ≡ end
            → seen_code self.old ≡ front ++ old ∷ back
            → seen_code self.new ≡ front ++ flats.Jump (negsuc (length front)) ∷ back) }
    {
        let count = self.len();
        if count <= end {
            return Err(Refusal::Memory);
        }
        let index = count - 1 - end;
        let back = jump_back(index)?;
        self.flats[index] = back;
        Ok(())
    }
}

/// How far it is from so many instructions before the end to fewer of them.
pub fn distance(from: usize, to: usize) -> Result<i64, Refusal>
    ensures { IfOk result (λ distance. distance ≡ pos (from - to)) }
{
    match i64::try_from(from.saturating_sub(to)) {
        Ok(distance) => Ok(distance),
        Err(_) => Err(Refusal::Memory),
    }
}

/// How far it is back over so many instructions and the jump itself.
fn backward(count: usize) -> Result<i64, Refusal>
    ensures { IfOk result (λ distance. distance ≡ negsuc count) }
{
    match i64::try_from(count) {
        Ok(count) => Ok(-1 - count),
        Err(_) => Err(Refusal::Memory),
    }
}

/// A jump back over so many instructions and itself.
fn jump_back<'a>(count: usize) -> Result<Flat<'a>, Refusal>
    ensures { IfOk result (λ flat. seen flat ≡ flats.Jump (negsuc count)) }
{
    let far = backward(count)?;
    Ok(Flat::Jump(far))
}

/// A number of operands or locals.
pub fn count(number: usize) -> Result<u32, Refusal>
    ensures { IfOk result (λ count. count ≡ number) }
{
    match u32::try_from(number) {
        Ok(count) => Ok(count),
        Err(_) => Err(Refusal::Memory),
    }
}
