//! The tables of a library's modules.

ghost use Rattle.std.specs.Prelude.{◌≡◌, ◌<◌, ◌↔◌, ℕ, true, false, length, IfOk, OnOk, Some, None};
ghost use Rattle.std.specs.Prelude.{[], slice_get, slice_set, replicate};
ghost use Rattle.std.specs.Option.{option_copied, option_map};
ghost use Rattle.std.specs.Str.{bytes_eq};
ghost use Rattle.std.specs.FinMap as map;
ghost use Rattle.dy_base.specs.Tables.{table_of};
ghost use Rattle.dy_modules.specs.Clauses.{Name, IsIn};
ghost use Rattle.dy_modules.specs.Sees.{IsGrounded};
ghost use Rattle.dy_modules.specs.Cells.{at, cell_of, comes, after_one, after_rows, after_source};
ghost use Rattle.dy_modules.specs.Cells.{after_uses, after_listed, owner_or, over, over_one};
ghost use Rattle.dy_modules.specs.Cells.{exported};
ghost use Rattle.dy_modules.specs.Order.{all_rows, is_made, is_ready, AreTables, AreRight, IsStuck};
ghost use Rattle.dy_modules.specs.Order.{Makes, Turns};

use crate::clause::{ModuleForm, UseClause, picked};
use crate::names::NameSet;
use crate::owner::Owner;
use crate::table::{Cell, add, copy};
use dy_base::{NameList, Text};
use std::alloc::{AllocError, Global};

/// What a module imports, and what it exports.
#[derive(Drop)]
pub struct ModuleTables {
    pub imports: NameList<Cell>,
    pub exports: NameList<Cell>,
}

// Adds what a clause brings from a row of a table, or of that what it exports again.
fn bring_row(
    alloc: Global,
    again_only: bool,
    u: &UseClause,
    row: Option<(&[u8], &Cell)>,
    into: &mut NameList<Cell>,
) -> Result<(), AllocError>
    ensures { OnOk result ((n : Name) → at into.new n
        ≡ after_one (comes again_only u.now n) cell_of
        (option_map (λ p. (p.0.now, p.1.now)) row.entry) (at into.old n)) }
{
    let Some((name, cell)) = row else {
        return Ok(());
    };
    match picked(alloc, again_only, u, name)? {
        Some(n) => add(alloc, into, &n, copy(cell)?),
        None => Ok(()),
    }
}

// Adds what a clause brings from a table, or of that what it exports again.
fn bring(
    alloc: Global,
    again_only: bool,
    u: &UseClause,
    from: &NameList<Cell>,
    into: &mut NameList<Cell>,
) -> Result<(), AllocError>
    ensures { OnOk result ((n : Name)
        → at into.new n ≡ after_rows again_only u.now from.now n (at into.old n)) }
{
    for place in 0..from.len() {
        bring_row(alloc, again_only, u, from.at(place), into)?;
    }
    Ok(())
}

/// Adds what a clause brings from its source, or of that what it exports again.
pub fn bring_from(
    alloc: Global,
    again_only: bool,
    u: &UseClause,
    done: &[Option<ModuleTables>],
    into: &mut NameList<Cell>,
) -> Result<(), AllocError>
    ensures { OnOk result ((n : Name) → at into.new n
        ≡ after_source again_only u.now (slice_get (all_rows done.now) u.now.source) n
        (at into.old n)) }
{
    match done.get(u.source) {
        Some(Some(from)) => bring(alloc, again_only, u, &from.exports, into),
        Some(None) => Ok(()),
        None => Ok(()),
    }
}

// Adds what the clauses bring from the modules' exports, or of that what they export again.
fn bring_all(
    alloc: Global,
    again_only: bool,
    uses: &[UseClause],
    done: &[Option<ModuleTables>],
    into: &mut NameList<Cell>,
) -> Result<(), AllocError>
    ensures { OnOk result ((n : Name)
        → at into.new n ≡ after_uses again_only uses.now (all_rows done.now) n (at into.old n)) }
{
    for u in uses {
        bring_from(alloc, again_only, u, done, into)?;
    }
    Ok(())
}

// The owner of a name among the imports, or the module's own.
fn owner_or(alloc: Global, m: usize, name: &[u8], cell: Option<&Cell>) -> Result<Cell, AllocError>
    ensures { IfOk result (λ c. c ≡ owner_or m name.now (option_copied cell.entry)) }
{
    match cell {
        Some(cell) => copy(cell),
        None => Ok(Cell::One(Owner::Own(m, Text::of(alloc, name)?))),
    }
}

fn add_name(
    alloc: Global,
    m: usize,
    name: Option<&[u8]>,
    imports: &NameList<Cell>,
    into: &mut NameList<Cell>,
) -> Result<(), AllocError>
    ensures { OnOk result ((n : Name) → at into.new n
        ≡ after_one (bytes_eq n) (λ g. owner_or m g (at imports.now g))
        (option_map (λ g. g.now) name.entry) (at into.old n)) }
{
    let Some(name) = name else {
        return Ok(());
    };
    let cell = owner_or(alloc, m, name, imports.get(name))?;
    add(alloc, into, name, cell)
}

// Adds names, each of its owner among the imports where they have it.
fn add_listed(
    alloc: Global,
    m: usize,
    listed: &NameSet,
    imports: &NameList<Cell>,
    into: &mut NameList<Cell>,
) -> Result<(), AllocError>
    ensures { OnOk result ((n : Name)
        → at into.new n ≡ after_listed m (at imports.now) listed.now n (at into.old n)) }
{
    for place in 0..listed.len() {
        add_name(alloc, m, listed.at(place), imports, into)?;
    }
    Ok(())
}

fn put_owner(
    alloc: Global,
    row: Option<(&[u8], &Owner)>,
    into: &mut NameList<Cell>,
) -> Result<(), AllocError>
    ensures { OnOk result ((n : Name) → at into.new n
        ≡ over_one n (option_map (λ p. (p.0.now, p.1.now)) row.entry) (at into.old n)) }
{
    let Some((name, owner)) = row else {
        return Ok(());
    };
    into.set(alloc, name, Cell::One(owner.copy()?))
}

// Gives names the owners that they have, whatever they had before.
fn put_given(
    alloc: Global,
    given: &NameList<Owner>,
    into: &mut NameList<Cell>,
) -> Result<(), AllocError>
    ensures { OnOk result ((n : Name)
        → at into.new n ≡ over (map.get (table_of given.now) n) (at into.old n)) }
{
    for place in 0..given.len() {
        put_owner(alloc, given.at(place), into)?;
    }
    Ok(())
}

fn imports_of(
    alloc: Global,
    form: &ModuleForm,
    done: &[Option<ModuleTables>],
) -> Result<NameList<Cell>, AllocError>
    ensures { IfOk result (λ t. (n : Name)
        → at t n ≡ after_uses false form.now.uses (all_rows done.now) n None) }
{
    let mut table = NameList::new(alloc);
    bring_all(alloc, false, form.uses.as_slice(), done, &mut table)?;
    Ok(table)
}

fn exports_of(
    alloc: Global,
    m: usize,
    form: &ModuleForm,
    imports: &NameList<Cell>,
    done: &[Option<ModuleTables>],
) -> Result<NameList<Cell>, AllocError>
    ensures { IfOk result (λ t. (n : Name)
        → at t n ≡ exported m (at imports.now) form.now (all_rows done.now) n) }
{
    let mut table = NameList::new(alloc);
    add_listed(alloc, m, &form.listed, imports, &mut table)?;
    bring_all(alloc, true, form.uses.as_slice(), done, &mut table)?;
    put_given(alloc, &form.given, &mut table)?;
    Ok(table)
}

fn tables_of(
    alloc: Global,
    m: usize,
    form: &ModuleForm,
    done: &[Option<ModuleTables>],
) -> Result<ModuleTables, AllocError>
    ensures { IfOk result (λ t. AreTables m form.now (all_rows done.now) t) }
{
    let imports = imports_of(alloc, form, done)?;
    let exports = exports_of(alloc, m, form, &imports, done)?;
    imports.len();
    exports.len();
    Ok(ModuleTables { imports, exports })
}

fn is_made(done: &[Option<ModuleTables>], m: usize) -> bool
    ensures { result ≡ is_made (slice_get done.now m) }
{
    match done.get(m) {
        Some(Some(_)) => true,
        Some(None) => false,
        None => false,
    }
}

fn is_ready(uses: &[UseClause], done: &[Option<ModuleTables>]) -> bool
    ensures { result ≡ is_ready done.now uses.now }
{
    for u in uses {
        if !is_made(done, u.source) {
            return false;
        }
    }
    true
}

fn put(done: &mut Vec<Option<ModuleTables>>, m: usize, tables: ModuleTables)
    requires { m < length done.old.items }
    ensures { done.new.items ≡ slice_set done.old.items m (Some tables) }
{
    done[m] = Some(tables);
}

// Makes the tables of a module, where those of its sources are made, and says whether it did.
fn make(
    alloc: Global,
    forms: &[ModuleForm],
    m: usize,
    done: &mut Vec<Option<ModuleTables>>,
) -> Result<bool, AllocError>
    requires within { m < length forms.now }
    requires right { AreRight forms.now done.old.items }
    ensures made { IfOk result
        (λ made. made ≡ true → Makes forms.now m done.old.items done.new.items) }
    ensures stuck { IfOk result
        (λ made. made ≡ false → (done.new.items ≡ done.old.items)
        × IsStuck forms.now done.old.items m) }
{
    let form = &forms[m];
    if !is_ready(form.uses.as_slice(), done) {
        return Ok(false);
    }
    let tables = tables_of(alloc, m, form, done)?;
    put(done, m, tables);
    Ok(true)
}

// Makes the tables of those modules whose sources' are made, and gives the modules that are left.
fn round(
    alloc: Global,
    forms: &[ModuleForm],
    todo: &[usize],
    done: &mut Vec<Option<ModuleTables>>,
) -> Result<Vec<usize>, AllocError>
    requires within { (m : ℕ) → IsIn m todo.now → m < length forms.now }
    requires right { AreRight forms.now done.old.items }
    ensures { IfOk result (λ left. Turns forms.now todo.now []
        (length todo.now) done.old.items done.new.items left.items) }
{
    let mut left = Vec::new(alloc);
    for m in todo {
        if !make(alloc, forms, *m, done)? {
            left.push(*m)?;
        }
    }
    Ok(left)
}

fn begin(alloc: Global, count: usize) -> Result<Vec<Option<ModuleTables>>, AllocError>
    ensures { IfOk result (λ v. v.items ≡ replicate count None) }
{
    let mut done = Vec::new(alloc);
    for _i in 0..count {
        done.push(None)?;
    }
    Ok(done)
}

fn numbers(alloc: Global, count: usize) -> Result<Vec<usize>, AllocError>
    ensures { IfOk result (λ v. (m : ℕ) → IsIn m v.items ↔ (m < count)) }
{
    let mut v = Vec::new(alloc);
    for i in 0..count {
        v.push(i)?;
    }
    Ok(v)
}

/// The tables of all modules that lead to no ring. The one error is want of memory.
pub fn settle(alloc: Global, forms: &[ModuleForm]) -> Result<Vec<Option<ModuleTables>>, AllocError>
    // What is made is right.
    ensures right { IfOk result (λ v. AreRight forms.now v.items) }
    // It is made for each module that leads to no ring.
    ensures all { IfOk result
        (λ v. (m : ℕ) → IsGrounded forms.now m → is_made (slice_get v.items m) ≡ true) }
{
    let mut done = begin(alloc, forms.len())?;
    let mut todo = numbers(alloc, forms.len())?;
    loop {
        let left = round(alloc, forms, &todo, &mut done)?;
        if left.len() == todo.len() {
            return Ok(done);
        }
        todo = left;
    }
}
