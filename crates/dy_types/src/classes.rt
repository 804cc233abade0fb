//! Classes of a program, and which is at or below which.

ghost use Rattle.std.specs.Prelude.{◌≡◌, ◌↔◌, Any, Contains, IsTrue};
ghost use Rattle.dy_types.specs.Classes.{order_of, IsAtOrBelow, built_in, literal_class};
ghost use Rattle.dy_types.specs.Members.{HaveCommonClass};

use dy_base::{ClassId, Ref};
use dy_term::{ClassRow, LibraryRow, Literal, Program};

/// A class of the library `dylan`, which is the first of each program.
pub(crate) fn built_in(row: u32) -> ClassId
    ensures { result ≡ built_in row }
{
    ClassId(Ref { library: 0, row })
}

/// The class of integers.
pub(crate) fn integer() -> ClassId
    ensures { result ≡ built_in 9 }
{
    built_in(9)
}

/// The class of classes.
pub(crate) fn class_of_classes() -> ClassId
    ensures { result ≡ built_in 24 }
{
    built_in(24)
}

/// The direct class of what a literal stands for.
pub(crate) fn literal_class(literal: &Literal) -> ClassId
    ensures { result ≡ literal_class literal.now }
{
    match literal {
        Literal::Int(_) => integer(),
        Literal::Char(_) => built_in(2),
        Literal::Bool(_) => built_in(1),
        Literal::Symbol(_) => built_in(3),
        Literal::Nil => built_in(16),
        Literal::Str(_) => built_in(19),
        Literal::List(_, _) => built_in(15),
        Literal::Vector(_) => built_in(17),
    }
}

fn row_lists(row: &ClassRow, class: ClassId) -> bool
    ensures { IsTrue result ↔ Contains row.now.order class }
{
    row.order.holds(class)
}

fn lists(program: &Program, class: ClassId, other: ClassId) -> bool
    ensures { IsTrue result ↔ Contains (order_of program.now class) other }
{
    match program.libraries.as_slice().get(class.0.library as usize) {
        None => false,
        Some(library) => match library.classes.as_slice().get(class.0.row as usize) {
            None => false,
            Some(row) => row_lists(row, other),
        },
    }
}

/// Whether a class is another, or its order lists the other.
pub(crate) fn is_at_or_below(program: &Program, class: ClassId, other: ClassId) -> bool
    ensures { IsTrue result ↔ IsAtOrBelow program.now class other }
{
    class == other || lists(program, class, other)
}

fn lists_both(row: &ClassRow, class: ClassId, other: ClassId) -> bool
    ensures { IsTrue result ↔ Contains row.now.order class × Contains row.now.order other }
{
    row_lists(row, class) && row_lists(row, other)
}

fn library_lists_both(library: &LibraryRow, class: ClassId, other: ClassId) -> bool
    ensures { IsTrue result
        ↔ Any (λ row. Contains row.order class × Contains row.order other) library.now.classes }
{
    library
        .classes
        .as_slice()
        .iter()
        .any(|row| lists_both(row, class, other))
}

/// Whether some class of the program lists both in its order.
pub(crate) fn have_common_class(program: &Program, class: ClassId, other: ClassId) -> bool
    ensures { IsTrue result ↔ HaveCommonClass program.now class other }
{
    program
        .libraries
        .as_slice()
        .iter()
        .any(|library| library_lists_both(library, class, other))
}
