//! By which clause a name has two owners.

ghost use Rattle.std.specs.Prelude.{◌≡◌, ◌≢◌, true, false, List, IfOk, Some};
ghost use Rattle.dy_modules.specs.declared.clause.ModuleForm.{ModuleForm};
ghost use Rattle.dy_modules.specs.declared.table.Cell.TheVariants.{Many};
ghost use Rattle.dy_modules.specs.Clauses.{Name};
ghost use Rattle.dy_modules.specs.Cells.{at};
ghost use Rattle.dy_modules.specs.Order.{all_rows, is_ready, AreRight};
ghost use Rattle.dy_modules.specs.Clash.{Clashes, Found};

use crate::build::is_clear;
use crate::clause::UseClause;
use crate::rounds::{ModuleTables, bring_from};
use crate::table::Cell;
use dy_base::NameList;
use std::alloc::{AllocError, Global};

// A name of a table has several owners.
fn has_many(table: &NameList<Cell>) -> bool
    ensures yes { result ≡ true → (n : Name) × (at table.now n ≡ Some Many) }
    ensures never { result ≡ false → (n : Name) → at table.now n ≢ Some Many }
{
    table.len();
    !is_clear(table)
}

fn find_clash(
    alloc: Global,
    uses: &[UseClause],
    done: &[Option<ModuleTables>],
) -> Result<Option<usize>, AllocError>
    ensures { IfOk result (λ o. Found (all_rows done.now) uses.now o) }
{
    let mut table = NameList::new(alloc);
    for (i, u) in uses.iter().enumerate() {
        bring_from(alloc, false, u, done, &mut table)?;
        if has_many(&table) {
            return Ok(Some(i));
        }
    }
    Ok(None)
}

/// The first of a module's use clauses by which a name has two owners, where the tables of all its
/// sources are made (DRM 4, "Modules"). The one error is want of memory.
pub fn first_clash(
    alloc: Global,
    uses: &[UseClause],
    done: &[Option<ModuleTables>],
) -> Result<Option<usize>, AllocError>
    ensures { IfOk result (λ o. (ms : List ModuleForm) → AreRight ms done.now
        → is_ready done.now uses.now ≡ true → Clashes ms uses.now o) }
{
    let found = find_clash(alloc, uses, done)?;
    Ok(found)
}
