//! Promised names that are not defined.

ghost use Rattle.std.specs.Prelude.{◌≡◌, [], IfOk, OnOk};
ghost use Rattle.dy_module_tables.specs.Lacking.{lacking_by, with_lacking};

use crate::lookup::export_definition;
use crate::promise::Promise;
use dy_base::{BindingId, Items, Name, NameTable, Place, fold};
use dy_modules::ModuleTables;
use std::alloc::{AllocError, Global};

/// Adds a promised name, where it is not defined.
fn add_lacking(
    alloc: Global,
    found: Option<BindingId>,
    promise: &Promise,
    list: &mut Items<(Name, Place)>,
) -> Result<(), AllocError>
    ensures { OnOk result (list.new ≡ lacking_by found promise.now list.old) }
{
    match found {
        Some(_) => Ok(()),
        None => {
            list.push((fold(alloc, promise.name.bytes())?, promise.place))?;
            Ok(())
        }
    }
}

/// Those of these promised names that are not defined, in their order, each with the place of its
/// clause.
pub fn lacking(
    alloc: Global,
    tables: &Vec<Option<ModuleTables>>,
    defined: &Vec<NameTable<BindingId>>,
    promised: &[Promise],
) -> Result<Items<(Name, Place)>, AllocError>
    ensures { IfOk result (λ list. list
        ≡ with_lacking tables.now.items defined.now.items promised.now []) }
{
    let mut list = Items::new(alloc);
    for promise in promised {
        let found = export_definition(tables, defined, promise.number, &promise.name);
        add_lacking(alloc, found, promise, &mut list)?;
    }
    Ok(list)
}
