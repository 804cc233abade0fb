//! The table of a library's modules.

ghost use Rattle.std.specs.Prelude.{◌≡◌, ◌↔◌, ◌<◌, ◌≤◌, ℕ, true, false, List, [], ◌∷◌, ◌++◌};
ghost use Rattle.std.specs.Prelude.{length, IfOk, OnOk, OnErr, Some, None, map as list_map};
ghost use Rattle.std.specs.Prelude.{slice_get, replicate};
ghost use Rattle.std.specs.Option.{option_copied, option_map};
ghost use Rattle.std.specs.FinMap as map;
ghost use Rattle.dy_base.specs.Tables.{table_of};
ghost use Rattle.dy_base.specs.declared.ids.BindingId.{BindingId};
ghost use Rattle.dy_modules.specs.Clauses.{Name};
ghost use Rattle.dy_modules.specs.Builds.{IsClear, all_clear};
ghost use Rattle.dy_modules.specs.Order.{AreRight};
ghost use Rattle.dy_module_tables.specs.Graphs.{Graph, Means, IsTaken, IsFree, put_in};
ghost use Rattle.dy_module_tables.specs.Graphs.{FirstLacking, AreFolded, AllExported};
ghost use Rattle.dy_module_tables.specs.Looking.{lent_target, import_target, target_of};
ghost use Rattle.dy_module_tables.specs.Looking.{defined_rows, exports_in};
ghost use Rattle.dy_module_tables.specs.Lacking.{AreLacking};
ghost use Rattle.dy_module_tables.specs.Meant.{IsOwner, IsBarred, owner_of, is_open_in};
ghost use Rattle.dy_module_tables.specs.Seeing.{seen_in};

use crate::lent::LentNames;
use crate::meant::OpenTable;
use crate::promise::Promise;
use crate::{lacking, lookup};
use dy_base::{BindingId, Items, Name, NameList, NameTable, Place, Text, fold};
use dy_modules::{Cell, ModuleForm, ModuleTables, Owner, all_clear, settle};
use std::alloc::{AllocError, Global};
use std::marker::Model;

/// Which names the modules of a library see, who owns them, and what is defined.
#[derive(Drop)]
pub struct ModuleTable {
    modules: Items<ModuleForm>,
    own: usize,
    tables: Vec<Option<ModuleTables>>,
    defined: Vec<NameTable<BindingId>>,
    promised: Items<Promise>,
    shown: Items<(Name, usize)>,
}

impl Model for ModuleTable {
    ghost use Rattle.dy_module_tables.specs.Graphs.{Graph};
    ghost use Rattle.dy_module_tables.specs.Looking.{IsWhole};
    ghost use Rattle.std.specs.FinMap as map;
    ghost use Rattle.std.specs.Coded.{codes, coded_list, coded_ℕ};

    ghost Value = { Graph };

    ghost coded = { Prim.hlevel (codes, map.code) };

    ghost view = { λ t. record {
      modules = t.modules;
      own = t.own;
      defined = t.defined.items;
      promised =
          t.promised;
      shown = t.shown;
    } };

    ghost invariant = { λ t. IsWhole t.modules t.own t.tables.items t.defined.items };
}

// What a definition would define of a name with this cell by imports, as a module and a name there.
fn lent_target(
    alloc: Global,
    modules: &[ModuleForm],
    number: usize,
    name: &[u8],
    cell: &Cell,
) -> Result<Option<(usize, Text)>, AllocError>
    ensures { IfOk result (λ o. o ≡ lent_target modules.now number name.now cell.now) }
{
    match cell {
        Cell::One(Owner::Own(at, a)) => {
            if lookup::is_lent(alloc, modules, number, *at, a.bytes(), name)? {
                Ok(Some((*at, Text::of(alloc, a.bytes())?)))
            } else {
                Ok(None)
            }
        }
        Cell::One(Owner::Outside(_)) => Ok(None),
        Cell::Many => Ok(None),
    }
}

fn import_target(
    alloc: Global,
    modules: &[ModuleForm],
    number: usize,
    name: &[u8],
    cell: Option<&Cell>,
) -> Result<Option<(usize, Text)>, AllocError>
    ensures { IfOk result (λ o. o
        ≡ import_target modules.now number name.now (option_copied cell.entry)) }
{
    match cell {
        Some(cell) => lent_target(alloc, modules, number, name, cell),
        None => Ok(Some((number, Text::of(alloc, name)?))),
    }
}

// What a definition of a name in a module of the library would define.
fn target(
    alloc: Global,
    modules: &Items<ModuleForm>,
    tables: &Vec<Option<ModuleTables>>,
    defined: &Vec<NameTable<BindingId>>,
    number: usize,
    name: &Name,
) -> Result<Option<(usize, Text)>, AllocError>
    ensures { IfOk result (λ o. o
        ≡ target_of modules.now tables.now.items defined.now.items number name.now) }
{
    if lookup::seen_definition(modules, tables, defined, number, name).is_some() {
        return Ok(None);
    }
    if lookup::is_given(modules.as_slice(), number, name.bytes()) {
        return Ok(None);
    }
    let cell = lookup::import_of(tables, number, name.bytes());
    import_target(alloc, modules.as_slice(), number, name.bytes(), cell)
}

// Adds a row of a table, where it is defined.
fn add_definition(
    alloc: Global,
    defined: &[NameTable<BindingId>],
    row: Option<(&[u8], &Cell)>,
    list: &mut Items<(Name, BindingId)>,
) -> Result<(), AllocError>
    ensures { OnOk result (list.new
        ≡ list.old ++ defined_rows defined.now
        (option_map (λ p. (p.0.now, p.1.now)) row.entry ∷ [])) }
{
    let Some((name, cell)) = row else {
        return Ok(());
    };
    match lookup::cell_definition(defined, cell) {
        Some(id) => {
            list.push((fold(alloc, name)?, id))?;
            Ok(())
        }
        None => Ok(()),
    }
}

// The rows of a table that are defined, sorted by the bytes of their names.
fn definitions(
    alloc: Global,
    defined: &[NameTable<BindingId>],
    table: &NameList<Cell>,
) -> Result<Items<(Name, BindingId)>, AllocError>
    ensures { IfOk result (λ list. list
        ≡ defined_rows defined.now (list_map Some (map.entries (table_of table.now)))) }
{
    let mut list = Items::new(alloc);
    let places = table.sorted_places(alloc)?;
    for place in &places {
        add_definition(alloc, defined, table.at(*place), &mut list)?;
    }
    Ok(list)
}

// What a module exports, sorted by the bytes of the names.
fn exports_of(
    alloc: Global,
    tables: &Vec<Option<ModuleTables>>,
    defined: &Vec<NameTable<BindingId>>,
    number: usize,
) -> Result<Items<(Name, BindingId)>, AllocError>
    ensures { IfOk result (λ list. list
        ≡ defined_rows defined.now.items
        (list_map Some (map.entries (table_of (exports_in (slice_get tables.now.items number)))))) }
{
    match tables.get(number) {
        Some(Some(tables)) => definitions(alloc, defined, &tables.exports),
        Some(None) => definitions(alloc, defined, &NameList::new(alloc)),
        None => definitions(alloc, defined, &NameList::new(alloc)),
    }
}

impl ModuleTable {
    /// The table of these modules, of which the first are the library's own, before anything is
    /// defined. It is `None` exactly where a module leads to a ring of modules, or a name of one
    /// has two owners by imports (DRM 4, "Modules"). The one error is want of memory.
    pub fn of_forms(
        alloc: Global,
        modules: Items<ModuleForm>,
        own: usize,
        promised: Items<Promise>,
        shown: Items<(Name, usize)>,
    ) -> Result<Option<ModuleTable>, AllocError>
        requires { own ≤ length modules }
        ensures table { IfOk result (λ o. (t : Graph) → o ≡ Some t
            → t ≡ record {
              modules = modules;
              own = own;
              defined =
                  replicate (length modules) map.empty;
              promised = promised;
              shown = shown;
            }) }
        ensures clear { IfOk result (λ o. (t : Graph) → o ≡ Some t → IsClear modules) }
        ensures none { IfOk result (λ o. o ≡ None → IsClear modules → ⊥) }
    {
        let tables = settle(alloc, modules.as_slice())?;
        if !all_clear(&tables) {
            return Ok(None);
        }
        let table = ModuleTable::of_tables(alloc, modules, own, tables, promised, shown)?;
        Ok(Some(table))
    }

    /// The same where the tables of all modules are made, and no name has two owners by imports.
    pub fn of_tables(
        alloc: Global,
        modules: Items<ModuleForm>,
        own: usize,
        tables: Vec<Option<ModuleTables>>,
        promised: Items<Promise>,
        shown: Items<(Name, usize)>,
    ) -> Result<ModuleTable, AllocError>
        requires within { own ≤ length modules }
        requires right { AreRight modules tables.items }
        requires clear { all_clear tables.items ≡ true }
        ensures { IfOk result (λ t. t
            ≡ record {
              modules = modules;
              own = own;
              defined =
                  replicate (length modules) map.empty;
              promised = promised;
              shown = shown;
            }) }
    {
        let defined = lookup::nothing_defined(alloc, modules.len())?;
        Ok(ModuleTable {
            modules,
            own,
            tables,
            defined,
            promised,
            shown,
        })
    }

    /// Adds a definition of a name in a module, by its number (DRM 4, "Modules"). The module, the
    /// module that creates the name if there is one, and all that import the name then see it.
    ///
    /// It is false exactly where the module sees a definition of the name already, creates the name
    /// itself, imports it but not from a module of its own library that creates it, or is none of
    /// the library's; then nothing changes. Nor does it after want of memory, the one error.
    pub fn define(
        &mut self,
        alloc: Global,
        number: u32,
        name: &Name,
        id: BindingId,
    ) -> Result<bool, AllocError>
        ensures taken { IfOk result
            (λ ok. (ok ≡ false) ↔ IsTaken self.old.modules self.old.own self.old.defined number
            name.now) }
        ensures same { IfOk result (λ ok. ok ≡ false → self.new ≡ self.old) }
        ensures defined { IfOk result
            (λ ok. ok ≡ true → (c : ℕ) × (a : List ℕ)
            × IsFree self.old.modules self.old.defined number name.now c a
            × (self.new ≡ record {
              modules = self.old.modules;
              own = self.old.own;
              defined =
                  put_in self.old.defined c a id;
              promised = self.old.promised;
              shown =
                  self.old.shown;
            })) }
        ensures err { OnErr result (self.new ≡ self.old) }
    {
        let number = number as usize;
        if number >= self.own {
            return Ok(false);
        }
        let found = target(
            alloc,
            &self.modules,
            &self.tables,
            &self.defined,
            number,
            name,
        )?;
        match found {
            Some((at, a)) => {
                lookup::put_in(alloc, &mut self.defined, at, a.bytes(), id)?;
                Ok(true)
            }
            None => Ok(false),
        }
    }

    /// What a module, by its number, sees a name defined as, or `None` exactly where it sees no
    /// such name that is defined (DRM 4, "Modules").
    pub fn owner(&self, number: u32, name: &Name) -> Option<BindingId>
        ensures exact { (id : BindingId) → (result ≡ Some id)
            ↔ Means self.now.modules self.now.defined number name.now id }
    {
        lookup::seen_definition(
            &self.modules,
            &self.tables,
            &self.defined,
            number as usize,
            name,
        )
    }

    /// What the modules see names defined as, lent: for each module by its number, and each name,
    /// what `owner` has (DRM 4, "Modules").
    pub fn names(&self) -> LentNames<'_>
        ensures exact { (m : ℕ) (n : Name) (id : BindingId) → (seen_in result m n ≡ Some id)
            ↔ Means self.now.modules self.now.defined m n id }
    {
        LentNames {
            modules: &self.modules,
            tables: &self.tables,
            defined: &self.defined,
        }
    }

    /// The modules with their tables laid open, without what is defined. The tables say of each
    /// name of each module who owns it (`owners`), and whether a definition of it may stand there
    /// (`opens`). `of_tables` may make a table of them again.
    pub fn lay_open(self) -> OpenTable
        ensures modules { result.modules ≡ self.modules }
        ensures own { result.own ≡ self.own }
        ensures promised { result.promised ≡ self.promised }
        ensures shown { result.shown ≡ self.shown }
        ensures within { self.own ≤ length self.modules }
        ensures right { AreRight self.modules result.tables.items }
        ensures clear { all_clear result.tables.items ≡ true }
        ensures owners { (m : ℕ) (n : Name)
            → IsOwner self.modules m n (owner_of result.modules result.tables.items m n) }
        ensures opens { (m : ℕ) (n : Name)
            → (is_open_in result.own result.modules result.tables.items m n ≡ false)
            ↔ IsBarred self.modules self.own m n }
    {
        let ModuleTable {
            modules,
            own,
            tables,
            defined: _,
            promised,
            shown,
        } = self;
        OpenTable {
            modules,
            own,
            tables,
            promised,
            shown,
        }
    }

    /// Says what the name that a module, by its number, owns is defined as. A name of no module
    /// changes nothing. Nor does want of memory, the one error.
    pub fn put(
        &mut self,
        alloc: Global,
        number: usize,
        name: &[u8],
        id: BindingId,
    ) -> Result<(), AllocError>
        ensures put { OnOk result
            (self.new ≡ record {
              modules = self.old.modules;
              own = self.old.own;
              defined =
                  put_in self.old.defined number name.now id;
              promised = self.old.promised;
              shown = self.old.shown;
            }) }
        ensures err { OnErr result (self.new ≡ self.old) }
    {
        if number >= self.defined.len() {
            return Ok(());
        }
        lookup::put_in(alloc, &mut self.defined, number, name, id)
    }

    /// The first name, by its clause and then by its place in it, that a module of the library
    /// exports or creates and that has no definition, with the place of the clause. It is `None`
    /// exactly where there is none.
    pub fn undefined(&self) -> Option<(&Name, Place)>
        ensures { FirstLacking self.now.modules self.now.defined self.now.promised
            (option_map (λ p. (p.0.now, p.1)) result) }
    {
        for promise in self.promised.as_slice() {
            let found = lookup::export_definition(
                &self.tables,
                &self.defined,
                promise.number,
                &promise.name,
            );
            if found.is_none() {
                return Some((&promise.name, promise.place));
            }
        }
        None
    }

    /// All names that a module of the library exports or creates and that have no definition, by
    /// their clauses and then by their places there, each with the place of its clause. The one
    /// error is want of memory.
    pub fn lacking(&self, alloc: Global) -> Result<Items<(Name, Place)>, AllocError>
        ensures { IfOk result
            (λ list. AreLacking self.now.modules self.now.defined self.now.promised list) }
    {
        let promised = self.promised.as_slice();
        let list = lacking::lacking(alloc, &self.tables, &self.defined, promised)?;
        Ok(list)
    }

    /// The library's exported modules with their exported names that are defined and the owners of
    /// these, both sorted by bytes (DRM 4, "Libraries"). The one error is want of memory.
    pub fn exports(
        &self,
        alloc: Global,
    ) -> Result<Items<(Name, Items<(Name, BindingId)>)>, AllocError>
        ensures { IfOk result (λ list. AreFolded self.now.modules
            → AllExported self.now.modules self.now.defined self.now.shown list) }
    {
        let mut list = Items::new(alloc);
        for (name, number) in self.shown.as_slice() {
            let names = exports_of(alloc, &self.tables, &self.defined, *number)?;
            list.push((fold(alloc, name.bytes())?, names))?;
        }
        Ok(list)
    }
}
