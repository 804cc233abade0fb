//! What is shown of the runs of a program.

use crate::programs::{Seen, Trouble, run_both};
use dy_cases_runs::add_run;
use dy_values::RunEnd;
use std::alloc::{AllocError, Global};

/// At least as many units as a program of the tables needs, unless it does not end.
const MOST: u64 = 150;

/// What is shown of a run with so many units.
fn shown(alloc: Global, fuel: u64, seen: &Seen) -> Result<String, AllocError> {
    let mut text = String::new(alloc);
    add_run(&mut text, fuel, seen.out.bytes(), &seen.end)?;
    Ok(text)
}

/// The run with the fewest units that suffice, and the one with one unit less; where the most that
/// are tried do not suffice, the run with these. A run on which the machine and the evaluator
/// differ is shown alone.
fn shown_runs(alloc: Global, source: &str) -> Result<String, Trouble> {
    let mut before = String::new(alloc);
    for fuel in 0..MOST + 1 {
        let (machine, plain) = run_both(alloc, source, fuel)?;
        let mut text = shown(alloc, fuel, &machine)?;
        let other = shown(alloc, fuel, &plain)?;
        if text != other {
            text.push_str(" differs from ")?;
            text.push_str(other.as_str())?;
            return Ok(text);
        }
        if !matches!(machine.end, RunEnd::OutOfFuel) {
            if fuel > 0 {
                text.push_str(", ")?;
                text.push_str(before.as_str())?;
            }
            return Ok(text);
        }
        before = text;
    }
    Ok(before)
}

/// What is shown of the program of a text, or that it is refused.
pub(crate) fn shown_run(alloc: Global, source: &str) -> Result<String, AllocError> {
    match shown_runs(alloc, source) {
        Ok(text) => Ok(text),
        Err(Trouble::Refused) => String::from_str(alloc, "refused"),
        Err(Trouble::Memory) => Err(AllocError),
    }
}
