//! The generic function that the first method of a name makes.

ghost use Rattle.std.specs.Prelude.{◌≡◌, IfOk, Some, replicate};
ghost use Rattle.dy_term.specs.declared.rows.MethodRow.{MethodRow};
ghost use Rattle.dy_classes.specs.Legal.{generic_name};
ghost use Rattle.dy_order.specs.Methods.{method_at};
ghost use Rattle.dy_generics.specs.Implicit.{object_type, no_keys, plain_generic, implicit_row};

use crate::rows::generic_of;
use dy_base::{ClassId, Items, MethodId, Name, Ref, fold};
use dy_order::method_of;
use dy_term::{DyType, GenericRow, Member, Params, Program, Results};
use std::alloc::{AllocError, Global};

/// The type `<object>`.
fn object_type(alloc: Global) -> Result<DyType, AllocError>
    ensures { IfOk result (λ declared. declared ≡ object_type) }
{
    let mut members = Vec::new(alloc);
    members.push(Member::Class(ClassId(Ref { library: 0, row: 0 })))?;
    Ok(DyType {
        members: Items::from_vec(members),
    })
}

fn object_types(alloc: Global, count: usize) -> Result<Items<DyType>, AllocError>
    ensures { IfOk result (λ types. types ≡ replicate count object_type) }
{
    let mut types = Vec::new(alloc);
    for _place in 0..count {
        types.push(object_type(alloc)?)?;
    }
    Ok(Items::from_vec(types))
}

fn no_keys(alloc: Global, has_keys: bool) -> Option<Items<Name>>
    ensures { result ≡ no_keys has_keys }
{
    if has_keys {
        Some(Items::new(alloc))
    } else {
        None
    }
}

/// A sealed generic function with so many required parameters of type `<object>`, with `#rest` and
/// `#key` as they are given, without keywords, and with any results. The one error is want of
/// memory.
pub fn plain_generic(
    alloc: Global,
    name: &Name,
    count: usize,
    rest: bool,
    has_keys: bool,
) -> Result<GenericRow, AllocError>
    ensures { IfOk result (λ row. row ≡ plain_generic name.now count rest has_keys) }
{
    Ok(GenericRow {
        name: fold(alloc, name.bytes())?,
        is_open: false,
        params: Params {
            required: object_types(alloc, count)?,
            rest,
            keys: no_keys(alloc, has_keys),
            all_keys: false,
        },
        results: Results {
            required: Items::new(alloc),
            rest: Some(object_type(alloc)?),
        },
    })
}

/// The row of the implicit generic function of a method that comes first: it has the name of the
/// method's generic function, is sealed, and has as many required parameters as the method, all of
/// type `<object>`. It has `#rest`, and `#key` without keywords, where the method has it, and any
/// results. The method has a row, and the one error is want of memory.
pub fn implicit(alloc: Global, program: &Program, first: MethodId) -> Result<GenericRow, AllocError>
    ensures { IfOk result (λ row. (own : MethodRow) → method_at program.now first ≡ Some own
        → row ≡ implicit_row (generic_name program.now own.generic) own.params) }
{
    let Some(row) = method_of(program, first) else {
        return plain_generic(alloc, &fold(alloc, b"".as_slice())?, 0, false, false);
    };
    let has_keys = row.params.keys.is_some();
    let count = row.params.required.len();
    match generic_of(program, row.generic) {
        None => plain_generic(
            alloc,
            &fold(alloc, b"".as_slice())?,
            count,
            row.params.rest,
            has_keys,
        ),
        Some(generic) => plain_generic(alloc, &generic.name, count, row.params.rest, has_keys),
    }
}
