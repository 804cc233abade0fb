//! What names mean outside of bodies.

ghost use Rattle.std.specs.Prelude.{[]};
ghost use Rattle.dy_term.specs.Rows.{seen_draft};
ghost use Rattle.dy_names.specs.Outside.{Outside};
ghost use Rattle.dy_binding.specs.Reads.{none};
ghost use Rattle.dy_rows.specs.Rows.{read_draft, IsAnswer};
ghost use Rattle.dy_module_names.specs.Means.{AreMeant, outside_in};

use dy_base::{BindingId, Items, Refusal, fold};
use dy_library_rows::{Names, RowCounts};
use dy_module_tables::{LentNames, ModuleTable};
use dy_names::{Environment, OwnerTable, Scope};
use dy_term::{Draft, DraftType, DyType, Row};
use dy_tree::Token;
use std::alloc::{AllocError, Global};

/// Names of which none means anything, nor a type. It takes no memory.
fn no_names(alloc: Global) -> Names {
    Names {
        owners: OwnerTable::new(alloc),
        rows: RowCounts {
            classes: 0,
            generics: 0,
            variables: 0,
        },
    }
}

/// What names mean outside of bodies by a table of modules, each in the module of its token (DRM 4,
/// "Modules"). No name means a type.
#[derive(Clone, Copy)]
pub struct TableNames<'a> {
    pub names: LentNames<'a>,
}

impl Environment for TableNames<'_> {
    ghost use Rattle.dy_module_names.specs.Means.{outside_in};

    ghost outside = { λ n. outside_in n.names };

    fn owner(&self, alloc: Global, name: &Token) -> Result<Option<BindingId>, AllocError> {
        let folded = fold(alloc, name.text.bytes())?;
        Ok(self.names.owner(name.module, &folded))
    }

    fn type_of(&self, alloc: Global, scope: &Scope, draft: &DraftType) -> Result<DyType, Refusal> {
        let names = no_names(alloc);
        names.type_of(alloc, scope, draft)
    }
}

impl TableNames<'_> {
    /// What names mean by this table.
    pub fn of(table: &ModuleTable) -> TableNames<'_>
        ensures { AreMeant table.now.modules table.now.defined (outside_in result.names) }
    {
        TableNames {
            names: table.names(),
        }
    }
}

/// The rows of a form, with their names resolved and their locals numbered, where each name means
/// what the module of its token sees it defined as; or the first fault, as `resolve` of `dy_rows`
/// has it: `Unbound`, `NotAssignable` or `NotAType`.
pub fn resolve(alloc: Global, table: &ModuleTable, draft: &Draft) -> Result<Items<Row>, Refusal>
    ensures { (out : Outside) × AreMeant table.now.modules table.now.defined out
        × IsAnswer (read_draft out (seen_draft draft.now) [] none) result }
{
    let names = TableNames::of(table);
    dy_rows::resolve(alloc, &names, draft)
}
