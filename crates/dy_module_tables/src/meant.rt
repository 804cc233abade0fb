//! Who owns what a module means by a name, and where definitions may stand.

ghost use Rattle.std.specs.Prelude.{◌≡◌, IfOk};
ghost use Rattle.std.specs.Option.{option_copied};
ghost use Rattle.dy_module_tables.specs.Meant.{owner_by, owner_of, is_open_cell, is_open};
ghost use Rattle.dy_module_tables.specs.Meant.{is_open_in};
ghost use Rattle.std.specs.Prelude.{slice_get};

use crate::lookup;
use crate::promise::Promise;
use dy_base::{Items, Name, Text};
use dy_modules::{Cell, ModuleForm, ModuleTables, Owner};
use std::alloc::{AllocError, Global};

fn owner_by(
    alloc: Global,
    number: usize,
    name: &[u8],
    given: Option<&Owner>,
    cell: Option<&Cell>,
) -> Result<Option<Owner>, AllocError>
    ensures { IfOk result (λ o. o
        ≡ owner_by number name.now (option_copied given.entry) (option_copied cell.entry)) }
{
    match given {
        Some(owner) => Ok(Some(owner.copy()?)),
        None => match cell {
            Some(Cell::One(owner)) => Ok(Some(owner.copy()?)),
            Some(Cell::Many) => Ok(None),
            None => Ok(Some(Owner::Own(number, Text::of(alloc, name)?))),
        },
    }
}

/// Who owns what a module means by a name.
fn owner_of(
    alloc: Global,
    modules: &[ModuleForm],
    tables: &[Option<ModuleTables>],
    number: usize,
    name: &[u8],
) -> Result<Option<Owner>, AllocError>
    ensures { IfOk result (λ o. o ≡ owner_of modules.now tables.now number name.now) }
{
    match modules.get(number) {
        Some(form) => {
            let cell = lookup::import_of(tables, number, name);
            owner_by(alloc, number, name, form.given.get(name), cell)
        }
        None => Ok(None),
    }
}

fn is_open_cell(
    alloc: Global,
    modules: &[ModuleForm],
    number: usize,
    name: &[u8],
    cell: Option<&Cell>,
) -> Result<bool, AllocError>
    ensures { IfOk result (λ b. b
        ≡ is_open_cell modules.now number name.now (option_copied cell.entry)) }
{
    match cell {
        None => Ok(true),
        Some(Cell::One(Owner::Own(at, a))) => {
            lookup::is_lent(alloc, modules, number, *at, a.bytes(), name)
        }
        Some(Cell::One(Owner::Outside(_))) => Ok(false),
        Some(Cell::Many) => Ok(false),
    }
}

/// Whether a definition of a name may stand in a module of the library.
fn is_open(
    alloc: Global,
    modules: &[ModuleForm],
    tables: &[Option<ModuleTables>],
    number: usize,
    name: &[u8],
) -> Result<bool, AllocError>
    ensures { IfOk result (λ b. b ≡ is_open modules.now tables.now number name.now) }
{
    if lookup::is_given(modules, number, name) {
        return Ok(false);
    }
    let cell = lookup::import_of(tables, number, name);
    is_open_cell(alloc, modules, number, name, cell)
}

/// The modules of a library, and those that they use, with their tables laid open.
#[derive(Drop)]
pub struct OpenTable {
    /// The modules, of which the first are the library's own.
    pub modules: Items<ModuleForm>,
    /// How many are the library's.
    pub own: usize,
    /// What each of them imports and exports.
    pub tables: Vec<Option<ModuleTables>>,
    /// The names that modules of the library export or create.
    pub promised: Items<Promise>,
    /// The modules that the library exports.
    pub shown: Items<(Name, usize)>,
}

impl OpenTable {
    /// Who owns what a module, by its number, means by a name, as the tables say it. The one error
    /// is want of memory.
    pub fn owner(
        &self,
        alloc: Global,
        number: u32,
        name: &Name,
    ) -> Result<Option<Owner>, AllocError>
        ensures { IfOk result (λ o. o
            ≡ owner_of self.now.modules self.now.tables.items number name.now) }
    {
        let modules = self.modules.as_slice();
        owner_of(alloc, modules, &self.tables, number as usize, name.bytes())
    }

    /// Whether a definition of a name may stand in a module, by its number, as the tables say it.
    /// The one error is want of memory.
    pub fn is_open(&self, alloc: Global, number: u32, name: &Name) -> Result<bool, AllocError>
        ensures { IfOk result (λ b. b ≡ is_open_in self.now.own self.now.modules
            self.now.tables.items number name.now) }
    {
        let number = number as usize;
        if number >= self.own {
            return Ok(false);
        }
        let modules = self.modules.as_slice();
        is_open(alloc, modules, &self.tables, number, name.bytes())
    }
}
