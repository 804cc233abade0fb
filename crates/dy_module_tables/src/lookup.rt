//! What the tables say of a name.

ghost use Rattle.std.specs.Prelude.{◌≡◌, ◌<◌, length, IfOk, OnOk, OnErr, is_some, slice_get};
ghost use Rattle.std.specs.Prelude.{replicate};
ghost use Rattle.std.specs.FinMap as map;
ghost use Rattle.std.specs.Option.{option_copied, option_map};
ghost use Rattle.dy_modules.specs.Clauses.{brought};
ghost use Rattle.dy_modules.specs.Cells.{is_name};
ghost use Rattle.dy_module_tables.specs.Graphs.{definition, defined_in, put_in};
ghost use Rattle.dy_module_tables.specs.Looking.{cell_definition, maybe_definition, given_in};
ghost use Rattle.dy_module_tables.specs.Looking.{import_in, export_in, choose, seen_definition};
ghost use Rattle.dy_module_tables.specs.Looking.{any_brings, is_given, is_lent};
ghost use Rattle.dy_modules.specs.declared.owner.Owner.TheVariants.{Own};

use dy_base::{BindingId, Items, Name, NameTable};
use dy_modules::{Cell, ModuleForm, ModuleTables, Owner, UseClause, brought};
use std::alloc::{AllocError, Global};

/// The owner that a module gives a name whatever its clauses bring.
pub fn given_of<'a>(modules: &'a [ModuleForm], number: usize, name: &[u8]) -> Option<&'a Owner>
    ensures { option_copied result ≡ given_in (slice_get modules.now number) name.now }
{
    match modules.get(number) {
        Some(form) => form.given.get(name),
        None => None,
    }
}

/// Whether a module gives a name an owner whatever its clauses bring.
pub fn is_given(modules: &[ModuleForm], number: usize, name: &[u8]) -> bool
    ensures { result ≡ is_some (given_in (slice_get modules.now number) name.now) }
{
    match given_of(modules, number, name) {
        Some(_) => true,
        None => false,
    }
}

/// What the clauses of a module bring under a name.
pub fn import_of<'a>(
    tables: &'a [Option<ModuleTables>],
    number: usize,
    name: &[u8],
) -> Option<&'a Cell>
    ensures { option_copied result ≡ import_in (slice_get tables.now number) name.now }
{
    match tables.get(number) {
        Some(Some(tables)) => tables.imports.get(name),
        Some(None) => None,
        None => None,
    }
}

/// What a module exports under a name.
pub fn export_of<'a>(
    tables: &'a [Option<ModuleTables>],
    number: usize,
    name: &[u8],
) -> Option<&'a Cell>
    ensures { option_copied result ≡ export_in (slice_get tables.now number) name.now }
{
    match tables.get(number) {
        Some(Some(tables)) => tables.exports.get(name),
        Some(None) => None,
        None => None,
    }
}

fn definition_of(defined: &[NameTable<BindingId>], number: usize, name: &[u8]) -> Option<BindingId>
    ensures { result ≡ defined_in (slice_get defined.now number) name.now }
{
    match defined.get(number) {
        Some(table) => table.get(name).copied(),
        None => None,
    }
}

fn definition(defined: &[NameTable<BindingId>], owner: &Owner) -> Option<BindingId>
    ensures { result ≡ definition defined.now owner.now }
{
    match owner {
        Owner::Outside(id) => Some(*id),
        Owner::Own(number, name) => definition_of(defined, *number, name.bytes()),
    }
}

/// What the one owner is defined as.
pub fn cell_definition(defined: &[NameTable<BindingId>], cell: &Cell) -> Option<BindingId>
    ensures { result ≡ cell_definition defined.now cell.now }
{
    match cell {
        Cell::One(owner) => definition(defined, owner),
        Cell::Many => None,
    }
}

/// What an exported name of a module is defined as.
pub fn export_definition(
    tables: &Vec<Option<ModuleTables>>,
    defined: &Vec<NameTable<BindingId>>,
    number: usize,
    name: &Name,
) -> Option<BindingId>
    ensures { result ≡ maybe_definition defined.now.items
        (export_in (slice_get tables.now.items number) name.now) }
{
    match export_of(tables, number, name.bytes()) {
        Some(cell) => cell_definition(defined, cell),
        None => None,
    }
}

/// What a module sees a name defined as.
pub fn seen_definition(
    modules: &Items<ModuleForm>,
    tables: &Vec<Option<ModuleTables>>,
    defined: &Vec<NameTable<BindingId>>,
    number: usize,
    name: &Name,
) -> Option<BindingId>
    ensures { result ≡ seen_definition modules.now tables.now.items defined.now.items number
        name.now }
{
    match given_of(modules.as_slice(), number, name.bytes()) {
        Some(owner) => definition(defined, owner),
        None => match import_of(tables, number, name.bytes()) {
            Some(cell) => cell_definition(defined, cell),
            None => definition_of(defined, number, name.bytes()),
        },
    }
}

fn is_brought(alloc: Global, u: &UseClause, a: &[u8], n: &[u8]) -> Result<bool, AllocError>
    ensures { IfOk result (λ b. b ≡ is_name (brought u.now a.now) n.now) }
{
    match brought(alloc, u, a)? {
        Some(name) => Ok(n == name.as_slice()),
        None => Ok(false),
    }
}

/// Whether a clause brings a name of a module under another one.
pub fn any_brings(
    alloc: Global,
    uses: &[UseClause],
    source: usize,
    a: &[u8],
    n: &[u8],
) -> Result<bool, AllocError>
    ensures { IfOk result (λ b. b ≡ any_brings uses.now source a.now n.now) }
{
    for u in uses {
        if u.source == source && is_brought(alloc, u, a, n)? {
            return Ok(true);
        }
    }
    Ok(false)
}

// Whether a module creates a name.
fn is_created(modules: &[ModuleForm], number: usize, name: &[u8]) -> bool
    ensures { result ≡ is_given (given_in (slice_get modules.now number) name.now)
        (Own number name.now) }
{
    match given_of(modules, number, name) {
        Some(owner) => owner.is_own(number, name),
        None => false,
    }
}

/// Whether a module creates a name, and another one's clause brings it under some name.
pub fn is_lent(
    alloc: Global,
    modules: &[ModuleForm],
    number: usize,
    source: usize,
    a: &[u8],
    n: &[u8],
) -> Result<bool, AllocError>
    ensures { IfOk result (λ b. b ≡ is_lent modules.now number source a.now n.now) }
{
    if !is_created(modules, source, a) {
        return Ok(false);
    }
    match modules.get(number) {
        Some(form) => any_brings(alloc, form.uses.as_slice(), source, a, n),
        None => Ok(false),
    }
}

/// One more definition of a module's own name. Where memory is short, the tables stay.
pub fn put_in(
    alloc: Global,
    defined: &mut Vec<NameTable<BindingId>>,
    number: usize,
    name: &[u8],
    id: BindingId,
) -> Result<(), AllocError>
    requires { number < length defined.old.items }
    ensures put { OnOk result (defined.new.items ≡ put_in defined.old.items number name.now id) }
    ensures err { OnErr result (defined.new.items ≡ defined.old.items) }
{
    defined[number].set(alloc, name, id)?;
    Ok(())
}

/// A table of definitions for each of some modules, with none yet.
pub fn nothing_defined(alloc: Global, count: usize) -> Result<Vec<NameTable<BindingId>>, AllocError>
    ensures { IfOk result (λ v. v.items ≡ replicate count map.empty) }
{
    let mut defined = Vec::new(alloc);
    for _i in 0..count {
        defined.push(NameTable::new(alloc))?;
    }
    Ok(defined)
}
