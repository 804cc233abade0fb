//! Forms as rows with their names resolved, or their first fault.

ghost use Rattle.std.specs.Prelude.{◌<◌, ◌^◌, length};

use crate::outer::outside;
use crate::uses::write_uses;
use dy_base::{Fault, Items, Kind, Place, Refusal};
use dy_cases_drafts::drafts_of;
use dy_library_rows::{read_library, resolve_library};
use dy_show_rows::{Written, write_row};
use dy_term::{Draft, Row, TopTerm};
use std::alloc::Global;

/// Where a form begins in its file, behind the header.
const BEGIN: u32 = 11;

/// The rows of forms. Those of the table `libraries` are all that a program has; the others find
/// what `outside` has.
fn rows_of(alloc: Global, table: &str, forms: &[(Place, Draft)]) -> Result<Items<Row>, Refusal> {
    if table == "libraries" {
        read_library(alloc, forms)
    } else {
        resolve_library(alloc, &outside(alloc)?, forms)
    }
}

/// Adds the rows of the forms of a text, and which locals the closures of their terms hold.
pub(crate) fn write_forms(
    alloc: Global,
    table: &str,
    text: &str,
    out: &mut Written,
) -> Result<(), Refusal>
    requires { length text.now < 2 ^ 31 }
{
    let forms = drafts_of(alloc, text)?;
    for row in rows_of(alloc, table, &forms)?.as_slice() {
        write_row(out, row);
        if let Row::Top(TopTerm::Run(term)) = row {
            write_uses(alloc, out, term)?;
        }
    }
    Ok(())
}

fn word_of(kind: Kind) -> &'static str {
    match kind {
        Kind::Unbound => "unbound",
        Kind::NotAssignable => "not assignable",
        Kind::NotAType => "not a type",
        Kind::Limit => "limit",
        _ => "other",
    }
}

/// Adds a fault: its kind, the offset of its place in the form, and what it shows.
pub(crate) fn write_fault(out: &mut Written, fault: &Fault) {
    out.word(word_of(fault.kind));
    if let Some(place) = fault.place {
        out.number(place.offset.saturating_sub(BEGIN));
    }
    for shown in fault.shown.as_slice() {
        out.bytes(shown.bytes());
    }
}
