//! The forms of a library as rows.

ghost use Rattle.std.specs.Prelude.{◌≡◌, ◌++◌, map, IfOk, OnOk};
ghost use Rattle.std.specs.List.{list_any};
ghost use Rattle.dy_term.specs.Rows.{seen_draft};
ghost use Rattle.dy_widths.specs.Rows.{is_wide};
ghost use Rattle.dy_library_rows.specs.Names.{names_of, outside_with};
ghost use Rattle.dy_library_rows.specs.Libraries.{IsLibrary, limit_of, seen_form};

use crate::names::names_of;
use dy_base::{Fault, Items, Place, Refusal};
use dy_names::Environment;
use dy_rows::resolve;
use dy_term::{Draft, Row};
use dy_widths::check_parameters;
use std::alloc::{AllocError, Global};

/// The fault of a form that begins at this place where one of its rows has too many parameters.
fn limit_in(alloc: Global, rows: &Items<Row>, place: Place) -> Result<Option<Fault>, AllocError>
    ensures { IfOk result (λ limit. limit ≡ limit_of place (list_any is_wide rows.now)) }
{
    for row in rows.as_slice() {
        match check_parameters(alloc, row, place) {
            Ok(()) => {}
            Err(Refusal::Fault(fault)) => return Ok(Some(fault)),
            Err(Refusal::Memory) => return Err(AllocError),
        }
    }
    Ok(None)
}

fn append(rows: &mut Items<Row>, more: Items<Row>) -> Result<(), AllocError>
    ensures { OnOk result (rows.new ≡ rows.old ++ more) }
{
    for row in more.into_vec() {
        rows.push(row)?;
    }
    Ok(())
}

/// The forms of a library as rows, with their names resolved and their locals numbered; or the
/// fault of the first form that `resolve` of `dy_rows` refuses; or `Limit` at the first form that
/// has more than 8 required parameters somewhere (own), which is told behind all others.
pub fn resolve_library<E: Environment>(
    alloc: Global,
    environment: &E,
    forms: &[(Place, Draft)],
) -> Result<Items<Row>, Refusal>
    ensures { IsLibrary (E.outside environment.now) (map seen_form forms.now) result }
{
    let mut rows = Items::new(alloc);
    let mut limit = None;
    for (place, draft) in forms {
        let found = resolve(alloc, environment, draft)?;
        if limit.is_none() {
            limit = limit_in(alloc, &found, *place)?;
        }
        append(&mut rows, found)?;
    }
    match limit {
        None => Ok(rows),
        Some(fault) => Err(Refusal::Fault(fault)),
    }
}

/// The forms of a program's own library as rows, as `resolve_library` has it, where names mean what
/// its forms define and what `dylan` and `io` export at this stage.
pub fn read_library(alloc: Global, forms: &[(Place, Draft)]) -> Result<Items<Row>, Refusal>
    ensures { IsLibrary (outside_with (names_of (map (λ f. seen_draft f.1) forms.now)))
        (map seen_form forms.now) result }
{
    let names = names_of(alloc, forms)?;
    resolve_library(alloc, &names, forms)
}
