//! The laws of linked rows.

ghost use Rattle.dy_linked_rows.specs.Laws.{BodiesAreLinked, LoweringCommutes, ViewsCommute};
ghost use Rattle.dy_linked_rows.specs.Laws.{BareRowsAreLinked, CountsStay};

/// What holds of rows that are linked.
pub fn linked_rows_laws()
    // The bodies of a linked library are its bodies, each linked.
    ensures bodies { BodiesAreLinked }
    // To lower and to link are the same in either order, where libraries that the code mentions
    // do not come together.
    ensures lowered { LoweringCommutes }
    // So it is where the libraries of a view do not.
    ensures views { ViewsCommute }
    // A linked row without terms is the row without terms, linked.
    ensures bare { BareRowsAreLinked }
    // A linked library has as many rows of each kind.
    ensures counts { CountsStay }
{}
