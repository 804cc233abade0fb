//! Where an instruction leads.

ghost use Rattle.std.specs.Prelude.{◌≡◌, ◌++◌, ◌+◌, ℕ, IfOk, None, Some, false, if◌then◌else◌};
ghost use Rattle.dy_lowered.specs.Flat as flats;
ghost use Rattle.dy_lowered.specs.Flat.{placed};
ghost use Rattle.dy_lowered.specs.Stretches.{ways, unless_tick};
ghost use Rattle.dy_lower_parts.specs.Seen.{seen};
ghost use Rattle.dy_stretch.specs.Walks.{held};

use dy_lower_lists::address;
use dy_lower_parts::{Flat, Refusal};

/// An instruction: whether it is a `Tick`, and the places to which it leads.
#[derive(Clone, Copy)]
pub(crate) struct Step {
    pub(crate) ticks: bool,
    pub(crate) next: Option<usize>,
    pub(crate) jump: Option<usize>,
}

/// The place behind an instruction. No code is so long that it is an error.
fn behind(place: usize) -> Result<Option<usize>, Refusal>
    ensures { IfOk result (λ next. next ≡ Some (place + 1)) }
{
    match place.checked_add(1) {
        Some(next) => Ok(Some(next)),
        None => Err(Refusal::Memory),
    }
}

/// The place to which a jump leads.
fn target(place: usize, distance: i64) -> Result<Option<usize>, Refusal>
    ensures { IfOk result (λ jump. jump ≡ Some (flats.address place distance)) }
{
    let to = address(place, distance)?;
    Ok(Some(to as usize))
}

/// An instruction that leads to the next one alone.
fn onward(place: usize) -> Result<Step, Refusal>
    ensures { IfOk result (λ step. step
        ≡ record { ticks = false; next = Some (place + 1); jump = None }) }
{
    Ok(Step {
        ticks: false,
        next: behind(place)?,
        jump: None,
    })
}

/// An instruction at a place.
pub(crate) fn step_at(flat: Flat, place: usize) -> Result<Step, Refusal>
    ensures ways { IfOk result (λ step. ways (place + 1) (placed place (seen flat.entry))
        ≡ held step.next ++ held step.jump) }
    ensures ticks { IfOk result (λ step. (count : ℕ)
        → unless_tick (Some (placed place (seen flat.entry))) count
        ≡ (if step.ticks then 0 else count)) }
{
    match flat {
        Flat::Return | Flat::NoMatch => Ok(Step {
            ticks: false,
            next: None,
            jump: None,
        }),
        Flat::Jump(distance) => Ok(Step {
            ticks: false,
            next: None,
            jump: target(place, distance)?,
        }),
        Flat::JumpFalse(distance) => Ok(Step {
            ticks: false,
            next: behind(place)?,
            jump: target(place, distance)?,
        }),
        Flat::Tick => Ok(Step {
            ticks: true,
            next: behind(place)?,
            jump: None,
        }),
        Flat::Const(_) | Flat::Truth(_) | Flat::Number(_) => onward(place),
        Flat::Local(_) | Flat::SetLocal(_) => onward(place),
        Flat::NewCell(_) | Flat::CellGet(_) | Flat::CellSet(_) | Flat::Free(_) => onward(place),
        Flat::FreeGet(_) | Flat::FreeSet(_) | Flat::Global(_) => onward(place),
        Flat::SetGlobal(_) | Flat::Push | Flat::Closure(_, _) => onward(place),
        Flat::Search(_, _) | Flat::CallKnown(_, _) | Flat::CallValue(_) => onward(place),
        Flat::Values(_) | Flat::Spread(_, _) | Flat::CheckResults(_) => onward(place),
        Flat::Op(_, _) | Flat::Handle(_) | Flat::Unhandle(_) => onward(place),
        Flat::Save | Flat::Restore | Flat::Args(_) => onward(place),
    }
}
