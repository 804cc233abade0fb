//! What `evaluate` does with programs.

use dy_cases_runs::add_run;
use dy_evaluate::evaluate;
use dy_io::MemSink;
use dy_term::Program;
use dy_values::RunEnd;
use std::alloc::{AllocError, Global};

/// At least as many units as a program of the tables needs, unless it does not end.
const MOST: u64 = 150;

/// The run with the fewest units that suffice, and what is printed with one unit less. Where the
/// most that are tried do not suffice, the run with these.
pub(crate) fn shown_run(alloc: Global, program: &Program) -> Result<String, AllocError> {
    let mut text = String::new(alloc);
    let mut before = MemSink::new(alloc);
    for fuel in 0..MOST + 1 {
        let mut out = MemSink::new(alloc);
        let end = evaluate(alloc, program, fuel, &mut out);
        if !matches!(end, RunEnd::OutOfFuel) {
            add_run(&mut text, fuel, out.bytes(), &end)?;
            if fuel > 0 {
                text.push_str(", ")?;
                add_run(&mut text, fuel - 1, before.bytes(), &RunEnd::OutOfFuel)?;
            }
            return Ok(text);
        }
        before = out;
    }
    add_run(&mut text, MOST, before.bytes(), &RunEnd::OutOfFuel)?;
    Ok(text)
}
