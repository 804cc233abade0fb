//! Which places of some code are reached.

ghost use Rattle.std.specs.Prelude.{◌≡◌, ◌∷◌, ◌++◌, [], IfOk, OnOk, get_or, true};
ghost use Rattle.dy_stretch.specs.Walks.{code_of, Marks, AreReached, IsWalked, VisitsTo};

use crate::steps::step_at;
use dy_lower_parts::{Flat, Refusal};
use std::alloc::Global;
use std::collections::VecDeque;

/// Marks a place to which an instruction leads. Where it was not marked, it waits.
fn mark(marks: &mut Vec<bool>, waiting: &mut Vec<usize>, to: Option<usize>) -> Result<(), Refusal>
    ensures { OnOk result
        (Marks to marks.old.items marks.new.items waiting.old.items waiting.new.items) }
{
    match to {
        None => Ok(()),
        Some(place) => {
            if place >= marks.len() || marks[place] {
                return Ok(());
            }
            waiting.push(place)?;
            marks[place] = true;
            Ok(())
        }
    }
}

/// Marks the places to which the instruction at a place leads, which waited and waits no more.
fn visit(
    flats: &VecDeque<Flat>,
    place: usize,
    marks: &mut Vec<bool>,
    waiting: &mut Vec<usize>,
) -> Result<(), Refusal>
    ensures { OnOk result (VisitsTo (code_of flats.now.items) place
        marks.old.items marks.new.items waiting.old.items waiting.new.items) }
{
    if place >= flats.len() {
        return Ok(());
    }
    let step = step_at(flats[place], place)?;
    mark(marks, waiting, step.next)?;
    mark(marks, waiting, step.jump)?;
    Ok(())
}

/// No place but the first is marked.
fn unmarked(alloc: Global, flats: &VecDeque<Flat>) -> Result<Vec<bool>, Refusal>
    ensures { IfOk result (λ marks. IsWalked (code_of flats.now.items) marks.items (0 ∷ [])) }
{
    let mut marks = Vec::new(alloc);
    for place in 0..flats.len() {
        marks.push(place == 0)?;
    }
    Ok(marks)
}

/// Marks each place that is reached. Each of them waits once, so it is linear in the code.
pub(crate) fn marks_of(alloc: Global, flats: &VecDeque<Flat>) -> Result<Vec<bool>, Refusal>
    ensures { IfOk result (λ marks. AreReached (code_of flats.now.items) marks.items) }
{
    let mut marks = unmarked(alloc, flats)?;
    let mut waiting = Vec::new(alloc);
    waiting.push(0)?;
    while let Some(place) = waiting.pop() {
        visit(flats, place, &mut marks, &mut waiting)?;
    }
    Ok(marks)
}
