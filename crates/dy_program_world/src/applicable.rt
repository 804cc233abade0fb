//! The methods that are applicable to arguments.

ghost use Rattle.std.specs.Prelude.{◌≡◌, ◌++◌, IfOk, OnOk};
ghost use Rattle.std.specs.List.{filter};
ghost use Rattle.dy_lowering_law.specs.Machines.{all_methods_from, methods_from};
ghost use Rattle.dy_program_world.specs.ProgramWorlds.{chosen};
ghost use Rattle.dy_program_world.specs.Steady as steady;
ghost use Rattle.dy_program_world.specs.Tables.{IsTable};

use crate::table::{method_at, methods_of, next};
use dy_base::{GenericId, MethodId, Ref};
use dy_bodies::is_applicable;
use dy_term::{MethodRow, Program};
use dy_values::{Store, Value};
use std::alloc::{AllocError, Global};

/// The methods of a library that are applicable come behind others.
fn choose_in(
    program: &Program,
    store: &Store,
    generic: GenericId,
    values: &[Value],
    library: u32,
    methods: &[MethodRow],
    into: &mut Vec<MethodId>,
) -> Result<(), AllocError>
    ensures { OnOk result (into.new.items ≡ into.old.items
        ++ chosen program.now store.now generic values.now (methods_from library 0 methods.now)) }
{
    let mut row = 0;
    for method in methods {
        let id = MethodId(Ref { library, row });
        row = next(row)?;
        if is_applicable(program, store, generic, values, method) {
            into.push(id)?;
        }
    }
    Ok(())
}

/// The methods of a generic function that are applicable, found among all methods.
fn choose_among_all(
    alloc: Global,
    program: &Program,
    store: &Store,
    generic: GenericId,
    values: &[Value],
) -> Result<Vec<MethodId>, AllocError>
    ensures { IfOk result (λ found. found.items ≡ chosen program.now store.now generic values.now
        (all_methods_from 0 program.now.libraries)) }
{
    let mut found = Vec::new(alloc);
    let mut place = 0;
    for library in program.libraries.as_slice() {
        let methods = library.methods.as_slice();
        choose_in(program, store, generic, values, place, methods, &mut found)?;
        place = next(place)?;
    }
    Ok(found)
}

/// Whether a method is one of a generic function, and is applicable.
fn applies(
    program: &Program,
    store: &Store,
    generic: GenericId,
    values: &[Value],
    method: MethodId,
) -> bool
    ensures { result ≡ steady.is_applicable program.now store.now generic values.now method }
{
    match method_at(program, method) {
        Some(row) => is_applicable(program, store, generic, values, row),
        None => false,
    }
}

/// Those of some methods that are applicable.
fn choose_among(
    alloc: Global,
    program: &Program,
    store: &Store,
    generic: GenericId,
    values: &[Value],
    methods: &[MethodId],
) -> Result<Vec<MethodId>, AllocError>
    ensures { IfOk result (λ found. found.items ≡ filter (steady.is_applicable program.now
        store.now generic values.now) methods.now) }
{
    let mut found = Vec::new(alloc);
    for method in methods {
        if applies(program, store, generic, values, *method) {
            found.push(*method)?;
        }
    }
    Ok(found)
}

/// The methods of a generic function that are applicable, in load order and the order of the text.
/// Only its own methods are looked at, if the table has a place for it.
pub fn choose(
    alloc: Global,
    program: &Program,
    table: &[Vec<Vec<MethodId>>],
    store: &Store,
    generic: GenericId,
    values: &[Value],
) -> Result<Vec<MethodId>, AllocError>
    requires { IsTable program.now table.now }
    ensures { IfOk result (λ found. found.items ≡ chosen program.now store.now generic values.now
        (all_methods_from 0 program.now.libraries)) }
{
    match methods_of(table, generic) {
        Some(methods) => choose_among(alloc, program, store, generic, values, methods),
        None => choose_among_all(alloc, program, store, generic, values),
    }
}
