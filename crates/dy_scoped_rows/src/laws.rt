//! The law of rows that are read.

ghost use Rattle.dy_names.specs.Outside.{Outside};
ghost use Rattle.dy_scoped_rows.specs.Scoped.{RowsInScope};

/// The rows of forms in which nothing is wrong are in scope, as far as they are lowered yet,
/// whatever is outside.
pub fn scoped_row_laws()
    ensures rows { (out : Outside) → RowsInScope out }
{}
