//! What the rows of a program say of methods.

ghost use Rattle.std.specs.Prelude.{◌≡◌, position};
ghost use Rattle.std.specs.Option.{option_copied};
ghost use Rattle.dy_base.specs.Orders.{is_class};
ghost use Rattle.dy_types.specs.Classes.{order_of};
ghost use Rattle.dy_order.specs.Methods.{counted, method_id, methods_in, method_at};
ghost use Rattle.dy_order.specs.Methods.{specializers_of};

use dy_base::{ClassId, MethodId, Ref};
use dy_term::{DyType, MethodRow, Program};

/// The methods of the library of this number, in the order of the text, and none where there is no
/// such library.
pub fn methods_in(program: &Program, library: u32) -> &[MethodRow]
    ensures { result.now ≡ methods_in program.now library }
{
    match program.libraries.as_slice().get(library as usize) {
        Some(row) => row.methods.as_slice(),
        None => &[],
    }
}

/// The row of a method, or `None` where there is none.
pub fn method_of(program: &Program, method: MethodId) -> Option<&MethodRow>
    ensures { option_copied result ≡ method_at program.now method }
{
    methods_in(program, method.0.library).get(method.0.row as usize)
}

/// The types of the required parameters of a method, and none where it has no row.
pub fn specializers_of(program: &Program, method: MethodId) -> &[DyType]
    ensures { result.now ≡ specializers_of program.now method }
{
    match method_of(program, method) {
        Some(row) => row.params.required.as_slice(),
        None => &[],
    }
}

/// The first place of a class in the class precedence list that the row of another one stores.
pub(crate) fn place_in_order(program: &Program, own: ClassId, class: ClassId) -> Option<usize>
    ensures { result ≡ position (is_class class) (order_of program.now own) }
{
    match program.libraries.as_slice().get(own.0.library as usize) {
        None => None,
        Some(library) => match library.classes.as_slice().get(own.0.row as usize) {
            None => None,
            Some(row) => row.order.place_of(class),
        },
    }
}

/// How many places of a list of this length an id counts.
pub(crate) fn counted(length: usize) -> u32
    ensures { result ≡ counted length }
{
    match u32::try_from(length) {
        Ok(count) => count,
        Err(_) => u32::MAX,
    }
}

/// The method of this library and row.
pub(crate) fn method_id(library: u32, row: u32) -> MethodId
    ensures { result ≡ method_id library row }
{
    MethodId(Ref { library, row })
}
