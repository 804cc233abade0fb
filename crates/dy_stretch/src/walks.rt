//! The longest way without a `Tick`.

ghost use Rattle.std.specs.Prelude.{◌≡◌, ◌<◌, ◌+◌, ◌++◌, ◌||◌, ℕ, IfOk, map, set, get_or, length};
ghost use Rattle.std.specs.Prelude.{true, false};
ghost use Rattle.dy_lowered.specs.Flat.{placed_from};
ghost use Rattle.dy_lowered.specs.Stretches.{stretch_of};
ghost use Rattle.dy_meaning.specs.Numbers.{greatest};
ghost use Rattle.dy_lower_parts.specs.Seen.{seen_code};
ghost use Rattle.dy_stretch.specs.Walks.{code_of, held, long_at, by_ways, AreBetween};
ghost use Rattle.dy_stretch.specs.Walks.{AreStill, AreLongest, IsMostTo};

use crate::reached::marks_of;
use crate::steps::{Step, step_at};
use dy_lower_parts::{Buffer, Flat, Refusal};
use std::alloc::Global;
use std::collections::VecDeque;

/// The longest way from a place, so far as it is known. None begins behind the code.
fn known(longs: &[u64], place: Option<usize>) -> u64
    ensures { result ≡ greatest (map (long_at longs.now) (held place)) }
{
    match place {
        None => 0,
        Some(place) => { if place < longs.len() { longs[place] } else { 0 } }
    }
}

/// The longest way from an instruction, so far as those from the places to which it leads are
/// known. It is no longer than the code.
fn long_from(longs: &[u64], step: Step) -> u64
    ensures { result ≡ by_ways (length longs.now) step.ticks
        (greatest (map (long_at longs.now) (held step.next ++ held step.jump))) }
{
    if step.ticks {
        return 0;
    }
    let behind = known(longs, step.next).max(known(longs, step.jump));
    let all = longs.len() as u64;
    if behind < all { behind + 1 } else { all }
}

/// Notes the longest way from a place. Tells whether another one was known before.
fn note(longs: &mut Vec<u64>, place: usize, long: u64) -> bool
    requires { place < length longs.now.items }
    ensures noted { longs.new.items ≡ set longs.old.items place long }
    ensures told { result ≡ false → get_or longs.old.items place 0 ≡ long }
{
    let other = longs[place] != long;
    longs[place] = long;
    other
}

/// Whether one of two is so.
fn either(one: bool, other: bool) -> bool
    ensures { result ≡ one || other }
{
    one || other
}

/// Goes over all places from the last one to the first, each of which may know a longer way than
/// before. Tells whether one does. A way that leads forward is known at once, and one that leads
/// back is known further by as much as it has of forward ways.
fn sweep(flats: &VecDeque<Flat>, longs: &mut Vec<u64>) -> Result<bool, Refusal>
    requires { length longs.now.items ≡ length flats.now.items }
    ensures further { IfOk result (λ changed. (taken : ℕ) → taken < length flats.now.items
        → AreBetween (code_of flats.now.items) taken longs.old.items
        → AreBetween (code_of flats.now.items) (taken + 1) longs.new.items) }
    ensures still { IfOk result (λ changed. changed ≡ false
        → AreStill (code_of flats.now.items) longs.new.items) }
{
    let mut changed = false;
    for place in (0..flats.len()).rev() {
        let step = step_at(flats[place], place)?;
        let long = long_from(longs, step);
        let other = note(longs, place, long);
        changed = either(other, changed);
    }
    Ok(changed)
}

/// No way is known.
fn unknown(alloc: Global, flats: &VecDeque<Flat>) -> Result<Vec<u64>, Refusal>
    ensures { IfOk result (λ longs. AreBetween (code_of flats.now.items) 0 longs.items) }
{
    let mut longs = Vec::new(alloc);
    for _place in 0..flats.len() {
        longs.push(0)?;
    }
    Ok(longs)
}

/// The longest way from each place, of which no more instructions are taken than the code has. It
/// goes over the code until nothing changes.
fn longs_of(alloc: Global, flats: &VecDeque<Flat>) -> Result<Vec<u64>, Refusal>
    ensures { IfOk result (λ longs. AreLongest (code_of flats.now.items) longs.items) }
{
    let mut longs = unknown(alloc, flats)?;
    for _turn in 0..flats.len() {
        if !sweep(flats, &mut longs)? {
            return Ok(longs);
        }
    }
    Ok(longs)
}

/// Whether a place is marked.
fn is_marked(marks: &[bool], place: usize) -> bool
    requires { place < length marks.now }
    ensures { result ≡ get_or marks.now place true }
{
    marks[place]
}

/// The longest way, where one place more is gone over.
fn more_of(marks: &[bool], longs: &[u64], place: usize, most: u64) -> u64
    requires within { place < length marks.now }
    requires before { IsMostTo longs.now marks.now place most }
    ensures { IsMostTo longs.now marks.now (place + 1) result }
{
    if !is_marked(marks, place) {
        return most;
    }
    most.max(known(longs, Some(place)))
}

/// The longest way of those from the places that are marked.
fn most_of(marks: &[bool], longs: &[u64]) -> u64
    ensures { IsMostTo longs.now marks.now (length marks.now) result }
{
    let mut most = 0;
    for place in 0..marks.len() {
        most = more_of(marks, longs, place, most);
    }
    most
}

/// How many instructions at most run one after the other without a `Tick`; so many as the code has
/// where a way leads around without one. The one error is want of memory.
pub fn stretch(alloc: Global, code: &Buffer) -> Result<u64, Refusal>
    ensures { IfOk result (λ stretch. stretch
        ≡ stretch_of (placed_from 0 (seen_code code.now))) }
{
    let flats = code.flats();
    let marks = marks_of(alloc, flats)?;
    let longs = longs_of(alloc, flats)?;
    Ok(most_of(&marks, &longs))
}
