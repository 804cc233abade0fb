//! Which locals closures hold.

use dy_captures::{LocalUses, captured_by, uses_of_term};
use dy_show_rows::Written;
use dy_term::{Item, Term};
use std::alloc::{AllocError, Global};
use std::collections::BTreeSet;

fn write_numbers(out: &mut Written, word: &str, numbers: &BTreeSet<u32>) {
    out.word(word);
    for number in numbers {
        out.number(*number);
    }
}

/// What the lambda at the end of a body holds.
fn write_held(alloc: Global, out: &mut Written, term: &Term) -> Result<(), AllocError> {
    if let Term::Body(items) = term {
        if let Some(Item::Run(Term::Method(lambda))) = items.as_slice().last() {
            write_numbers(out, "holds", &captured_by(alloc, lambda)?);
        }
    }
    Ok(())
}

/// The locals that closures hold, if there are any, and those of them that live in cells.
pub(crate) fn write_uses(alloc: Global, out: &mut Written, term: &Term) -> Result<(), AllocError> {
    let uses: LocalUses = uses_of_term(alloc, term)?;
    if uses.captured.is_empty() {
        return Ok(());
    }
    write_held(alloc, out, term)?;
    write_numbers(out, "captured", &uses.captured);
    out.word("cells");
    for number in &uses.captured {
        if uses.lives_in_cell(*number) {
            out.number(*number);
        }
    }
    Ok(())
}
