//! What modules see names defined as, lent from their table.

ghost use Rattle.std.specs.Prelude.{◌≡◌};
ghost use Rattle.dy_module_tables.specs.Seeing.{seen_in};

use crate::lookup::seen_definition;
use dy_base::{BindingId, Items, Name, NameTable};
use dy_modules::{ModuleForm, ModuleTables};

/// Modules, what they import and export, and what their own names are defined as.
#[derive(Clone, Copy)]
pub struct LentNames<'a> {
    pub modules: &'a Items<ModuleForm>,
    pub tables: &'a Vec<Option<ModuleTables>>,
    pub defined: &'a Vec<NameTable<BindingId>>,
}

impl LentNames<'_> {
    /// What a module, by its number, sees a name defined as.
    pub fn owner(&self, number: u32, name: &Name) -> Option<BindingId>
        ensures { result ≡ seen_in self.now number name.now }
    {
        seen_definition(
            self.modules,
            self.tables,
            self.defined,
            number as usize,
            name,
        )
    }
}
