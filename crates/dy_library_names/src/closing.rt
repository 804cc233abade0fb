//! The table of modules with what their names are defined as.

ghost use Rattle.std.specs.Prelude.{◌≡◌, ◌≤◌, true, length, replicate, IfOk, OnOk};
ghost use Rattle.std.specs.FinMap as map;
ghost use Rattle.dy_modules.specs.Builds.{all_clear};
ghost use Rattle.dy_modules.specs.Order.{AreRight};
ghost use Rattle.dy_definitions.specs.Seen.{meanings_in};
ghost use Rattle.dy_library_names.specs.Closing.{put_meaning, put_owned, put_all, with_definitions};

use dy_base::BindingId;
use dy_definitions::{Definition, MeaningTable};
use dy_module_tables::{ModuleTable, OpenTable};
use dy_modules::Owner;
use std::alloc::{AllocError, Global};

/// Says what a name of a module is defined as, where it is defined.
fn put_meaning(
    alloc: Global,
    number: usize,
    name: &[u8],
    meaning: Option<BindingId>,
    table: &mut ModuleTable,
) -> Result<(), AllocError>
    ensures { OnOk result (table.new ≡ with_definitions table.old
        (put_meaning number name.now meaning table.old.defined)) }
{
    match meaning {
        Some(id) => table.put(alloc, number, name, id),
        None => Ok(()),
    }
}

/// Says what the name of an owner is defined as.
fn put_owned(
    alloc: Global,
    meanings: &MeaningTable,
    owner: &Option<Owner>,
    table: &mut ModuleTable,
) -> Result<(), AllocError>
    ensures { OnOk result (table.new ≡ with_definitions table.old
        (put_owned (meanings_in meanings.now) owner.now table.old.defined)) }
{
    match owner {
        Some(Owner::Own(number, name)) => {
            let meaning = meanings.get(alloc, *number, name.bytes())?;
            put_meaning(alloc, *number, name.bytes(), meaning, table)
        }
        Some(Owner::Outside(_)) => Ok(()),
        None => Ok(()),
    }
}

/// Says what the names of these definitions are defined as.
fn put_all(
    alloc: Global,
    meanings: &MeaningTable,
    definitions: &[Definition],
    table: &mut ModuleTable,
) -> Result<(), AllocError>
    ensures { OnOk result (table.new ≡ with_definitions table.old
        (put_all (meanings_in meanings.now) definitions.now table.old.defined)) }
{
    for definition in definitions {
        put_owned(alloc, meanings, &definition.owner, table)?;
    }
    Ok(())
}

/// The table of modules again, in which the names of these definitions have their meanings.
pub fn close(
    alloc: Global,
    modules: OpenTable,
    meanings: &MeaningTable,
    definitions: &[Definition],
) -> Result<ModuleTable, AllocError>
    requires within { modules.own ≤ length modules.modules }
    requires right { AreRight modules.modules modules.tables.items }
    requires clear { all_clear modules.tables.items ≡ true }
    ensures { IfOk result (λ table. table ≡ record {
      modules = modules.modules;
      own = modules.own;
      defined = put_all (meanings_in meanings.now) definitions.now
          (replicate (length modules.modules) map.empty);
      promised = modules.promised;
      shown = modules.shown;
    }) }
{
    let OpenTable {
        modules,
        own,
        tables,
        promised,
        shown,
    } = modules;
    let mut table = ModuleTable::of_tables(alloc, modules, own, tables, promised, shown)?;
    put_all(alloc, meanings, definitions, &mut table)?;
    Ok(table)
}
