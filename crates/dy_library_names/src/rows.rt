//! The rows of one form.

ghost use Rattle.std.specs.Prelude.{◌≡◌, ◌++◌, IfOk, OnOk};
ghost use Rattle.std.specs.List.{list_any};
ghost use Rattle.dy_widths.specs.Rows.{is_wide};
ghost use Rattle.dy_library_rows.specs.Libraries.{limit_of};

use dy_base::{Fault, Items, Place, Refusal};
use dy_term::Row;
use dy_widths::check_parameters;
use std::alloc::{AllocError, Global};

/// The fault of a form that begins at this place where one of its rows has too many parameters. The
/// one error is want of memory.
pub fn limit_in(alloc: Global, rows: &Items<Row>, place: Place) -> Result<Option<Fault>, AllocError>
    ensures { IfOk result (λ limit. limit ≡ limit_of place (list_any is_wide rows.now)) }
{
    for row in rows.as_slice() {
        match check_parameters(alloc, row, place) {
            Ok(()) => {}
            Err(Refusal::Fault(fault)) => return Ok(Some(fault)),
            Err(Refusal::Memory) => return Err(AllocError),
        }
    }
    Ok(None)
}

/// Adds rows behind others. The one error is want of memory.
pub fn append(rows: &mut Items<Row>, more: Items<Row>) -> Result<(), AllocError>
    ensures { OnOk result (rows.new ≡ rows.old ++ more) }
{
    for row in more.into_vec() {
        rows.push(row)?;
    }
    Ok(())
}
