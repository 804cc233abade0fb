//! Rows, each kind in its order.

ghost use Rattle.std.specs.Prelude.{◌≡◌, OnOk};
ghost use Rattle.dy_assembly.specs.Libraries.{with_row, grown};

use dy_base::Items;
use dy_term::{LibraryRow, Row};
use std::alloc::AllocError;

/// Adds a row to those of its kind.
fn add_row(row: Row, library: &mut LibraryRow) -> Result<(), AllocError>
    ensures { OnOk result (library.new ≡ with_row row library.old) }
{
    match row {
        Row::Class(class) => library.classes.push(class)?,
        Row::Generic(generic) => library.generics.push(generic)?,
        Row::Method(method) => library.methods.push(method)?,
        Row::Domain(domain) => library.domains.push(domain)?,
        Row::Variable(variable) => library.variables.push(variable)?,
        Row::Top(top) => library.tops.push(top)?,
    }
    Ok(())
}

/// Adds rows, each to those of its kind.
pub(crate) fn add_rows(rows: Items<Row>, library: &mut LibraryRow) -> Result<(), AllocError>
    ensures { OnOk result (library.new ≡ grown library.old rows) }
{
    for row in rows.into_vec() {
        add_row(row, library)?;
    }
    Ok(())
}
