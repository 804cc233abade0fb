//! The rows of forms, and what is wrong with them.

ghost use Rattle.std.specs.Prelude.{◌≡◌, map, IfOk, OnOk};
ghost use Rattle.dy_term.specs.Rows.{seen_draft};
ghost use Rattle.dy_names.specs.Outside.{Outside};
ghost use Rattle.dy_library_rows.specs.Libraries.{seen_form};
ghost use Rattle.dy_module_names.specs.Means.{AreMeant};
ghost use Rattle.dy_library_names.specs.Passes.{nothing_read, with_form, with_forms};

use crate::rows::{append, limit_in};
use dy_base::{Items, Place, Refusal};
use dy_binding::{Progress, tell_some};
use dy_module_names::TableNames;
use dy_module_tables::ModuleTable;
use dy_names::Environment;
use dy_rows::resolve;
use dy_term::{Draft, Row};
use std::alloc::{AllocError, Global};

/// The rows of forms, and the first faults.
#[derive(Drop)]
pub struct Read {
    /// The rows of those forms with whose names nothing is wrong.
    pub rows: Items<Row>,
    /// The first fault of names.
    pub names: Progress,
    /// The first form with too many parameters somewhere.
    pub limits: Progress,
}

/// That nothing is read yet.
fn nothing_read(alloc: Global) -> Read
    ensures { result ≡ nothing_read }
{
    Read {
        rows: Items::new(alloc),
        names: Progress {
            next: 0,
            first: None,
        },
        limits: Progress {
            next: 0,
            first: None,
        },
    }
}

/// Reads one more form.
fn read_form<E: Environment>(
    alloc: Global,
    environment: &E,
    place: Place,
    draft: &Draft,
    read: &mut Read,
) -> Result<(), AllocError>
    ensures { OnOk result (read.new
        ≡ with_form (E.outside environment.now) (place, seen_draft draft.now) read.old) }
{
    match resolve(alloc, environment, draft) {
        Ok(rows) => {
            let limit = limit_in(alloc, &rows, place)?;
            tell_some(&mut read.limits, limit);
            append(&mut read.rows, rows)?;
            Ok(())
        }
        Err(Refusal::Fault(fault)) => {
            tell_some(&mut read.names, Some(fault));
            Ok(())
        }
        Err(Refusal::Memory) => Err(AllocError),
    }
}

/// The rows of these forms, and their first faults.
fn read_forms<E: Environment>(
    alloc: Global,
    environment: &E,
    forms: &[(Place, Draft)],
) -> Result<Read, AllocError>
    ensures { IfOk result (λ read. read
        ≡ with_forms (E.outside environment.now) (map seen_form forms.now) nothing_read) }
{
    let mut read = nothing_read(alloc);
    for (place, draft) in forms {
        read_form(alloc, environment, *place, draft, &mut read)?;
    }
    Ok(read)
}

/// The rows of these forms, and their first faults, where each name means what the module of its
/// token sees it defined as.
pub fn read_table(
    alloc: Global,
    table: &ModuleTable,
    forms: &[(Place, Draft)],
) -> Result<Read, AllocError>
    ensures { IfOk result (λ read. (out : Outside)
        × AreMeant table.now.modules table.now.defined out
        × (read ≡ with_forms out (map seen_form forms.now) nothing_read)) }
{
    let names = TableNames::of(table);
    let read = read_forms(alloc, &names, forms)?;
    Ok(read)
}
