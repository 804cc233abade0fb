//! The methods of each generic function.

ghost use Rattle.std.specs.Prelude.{◌≡◌, ◌+◌, ◌++◌, ◌∷◌, List, IfOk, OnOk};
ghost use Rattle.std.specs.Option.{option_copied};
ghost use Rattle.dy_base.specs.declared.ids.MethodId.{MethodId as Id};
ghost use Rattle.dy_term.specs.declared.rows.MethodRow.{MethodRow as Row};
ghost use Rattle.dy_lowering_law.specs.Machines.{methods_from};
ghost use Rattle.dy_program_world.specs.Tables.{entry, method_at, AreEmpty, IsEmpty, IsTable};
ghost use Rattle.dy_program_world.specs.Tables.{Awaits, IsEntered, IsEnteredIn};

use dy_base::{GenericId, MethodId, Ref};
use dy_term::{LibraryRow, MethodRow, Program};
use std::alloc::{AllocError, Global};

/// The methods of each generic function, library by library and row by row of the generic
/// functions. They stand in load order and the order of the text.
pub type Table = Vec<Vec<Vec<MethodId>>>;

/// The number of the next row. No memory holds so many rows that it does not fit.
pub fn next(number: u32) -> Result<u32, AllocError>
    ensures { IfOk result (λ next. next ≡ number + 1) }
{
    match number.checked_add(1) {
        Some(next) => Ok(next),
        None => Err(AllocError),
    }
}

/// So many empty lists.
fn empty_lists(alloc: Global, count: usize) -> Result<Vec<Vec<MethodId>>, AllocError>
    ensures { IfOk result (λ lists. AreEmpty lists.items) }
{
    let mut lists = Vec::new(alloc);
    for _ in 0..count {
        lists.push(Vec::new(alloc))?;
    }
    Ok(lists)
}

/// An empty list for each generic function.
fn empty_table(alloc: Global, libraries: &[LibraryRow]) -> Result<Table, AllocError>
    ensures { IfOk result (λ table. IsEmpty table.items) }
{
    let mut table = Vec::new(alloc);
    for library in libraries {
        table.push(empty_lists(alloc, library.generics.len())?)?;
    }
    Ok(table)
}

/// A method is entered in the lists of its library, if there is one for it.
fn enter_in(lists: &mut Vec<Vec<MethodId>>, row: u32, method: MethodId) -> Result<(), AllocError>
    ensures { OnOk result (IsEnteredIn row method lists.old.items lists.new.items) }
{
    if let Some(list) = lists.get_mut(row as usize) {
        list.push(method)?;
    }
    Ok(())
}

/// A method is entered in the list of its generic function, if there is one.
fn enter(table: &mut Table, generic: GenericId, method: MethodId) -> Result<(), AllocError>
    ensures { OnOk result (IsEntered generic method table.old.items table.new.items) }
{
    if let Some(lists) = table.get_mut(generic.0.library as usize) {
        enter_in(lists, generic.0.row, method)?;
    }
    Ok(())
}

/// The methods of a library are entered.
fn enter_all(library: u32, methods: &[MethodRow], table: &mut Table) -> Result<(), AllocError>
    ensures { OnOk result ((all last : List (Id × Row))
        → Awaits all (methods_from library 0 methods.now ++ last) table.old.items
        → Awaits all last table.new.items) }
{
    let mut row = 0;
    for method in methods {
        let id = MethodId(Ref { library, row });
        enter(table, method.generic, id)?;
        row = next(row)?;
    }
    Ok(())
}

/// The methods of each generic function of a program. Each method is looked at once.
pub fn table_of(alloc: Global, program: &Program) -> Result<Table, AllocError>
    ensures { IfOk result (λ table. IsTable program.now table.items) }
{
    let mut table = empty_table(alloc, program.libraries.as_slice())?;
    let mut place = 0;
    for library in program.libraries.as_slice() {
        enter_all(place, library.methods.as_slice(), &mut table)?;
        place = next(place)?;
    }
    Ok(table)
}

/// The methods that stand in a table for a generic function.
pub fn methods_of(table: &[Vec<Vec<MethodId>>], generic: GenericId) -> Option<&[MethodId]>
    ensures { option_copied result ≡ entry table.now generic }
{
    match table.get(generic.0.library as usize) {
        None => None,
        Some(lists) => match lists.get(generic.0.row as usize) {
            None => None,
            Some(methods) => Some(methods.as_slice()),
        },
    }
}

/// The row of a method.
pub fn method_at(program: &Program, method: MethodId) -> Option<&MethodRow>
    ensures { option_copied result ≡ method_at program.now method }
{
    match program.libraries.as_slice().get(method.0.library as usize) {
        None => None,
        Some(library) => library.methods.as_slice().get(method.0.row as usize),
    }
}
