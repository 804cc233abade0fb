//! Tables of modules that stand in rows.

use crate::rows::{ModuleRow, Step, UseRow};
use dy_base::{BindingId, Items, Name, NameList, Place, Ref, Text, What, fold};
use dy_module_tables::{ModuleTable, Promise};
use dy_modules::{ModuleForm, NameSet, Owner, UseClause};
use std::alloc::{AllocError, Global};

fn name_set(alloc: Global, names: &[&str]) -> Result<NameSet, AllocError> {
    let mut set = NameSet::new(alloc);
    for name in names {
        set.add(alloc, name.as_bytes())?;
    }
    Ok(set)
}

fn new_names(alloc: Global, rows: &[(&str, &str)]) -> Result<NameList<Name>, AllocError> {
    let mut list = NameList::new(alloc);
    for (name, new) in rows {
        list.set(alloc, name.as_bytes(), fold(alloc, new.as_bytes())?)?;
    }
    Ok(list)
}

fn own_names(alloc: Global, number: usize, names: &[&str]) -> Result<NameList<Owner>, AllocError> {
    let mut list = NameList::new(alloc);
    for name in names {
        let owner = Owner::Own(number, Text::of(alloc, name.as_bytes())?);
        list.set(alloc, name.as_bytes(), owner)?;
    }
    Ok(list)
}

fn use_clauses(alloc: Global, rows: &[UseRow]) -> Result<Items<UseClause>, AllocError> {
    let mut uses = Items::new(alloc);
    for row in rows {
        uses.push(UseClause {
            source: row.source,
            chosen: None,
            excluded: name_set(alloc, row.excluded)?,
            renamed: new_names(alloc, row.renamed)?,
            prefix: fold(alloc, row.prefix.as_bytes())?,
            again_all: row.again_all,
            again: NameSet::new(alloc),
        })?;
    }
    Ok(uses)
}

fn module_forms(alloc: Global, rows: &[ModuleRow]) -> Result<Items<ModuleForm>, AllocError> {
    let mut forms = Items::new(alloc);
    for (number, row) in rows.iter().enumerate() {
        forms.push(ModuleForm {
            given: own_names(alloc, number, row.created)?,
            listed: name_set(alloc, row.listed)?,
            uses: use_clauses(alloc, row.uses)?,
        })?;
    }
    Ok(forms)
}

fn promise_names(
    alloc: Global,
    number: usize,
    names: &[&str],
    list: &mut Items<Promise>,
) -> Result<(), AllocError> {
    for name in names {
        list.push(Promise {
            number,
            name: fold(alloc, name.as_bytes())?,
            place: Place { file: 0, offset: 0 },
        })?;
    }
    Ok(())
}

fn promises(alloc: Global, rows: &[ModuleRow]) -> Result<Items<Promise>, AllocError> {
    let mut list = Items::new(alloc);
    for (number, row) in rows.iter().enumerate() {
        promise_names(alloc, number, row.created, &mut list)?;
        promise_names(alloc, number, row.listed, &mut list)?;
    }
    Ok(list)
}

/// The table of the modules of these rows, of which all are the library's. Module 1 is exported as
/// `one`.
pub(crate) fn table(alloc: Global, rows: &[ModuleRow]) -> Result<Option<ModuleTable>, AllocError> {
    let forms = module_forms(alloc, rows)?;
    let own = forms.len();
    let promised = promises(alloc, rows)?;
    let mut shown = Items::new(alloc);
    shown.push((fold(alloc, b"one")?, 1usize))?;
    ModuleTable::of_forms(alloc, forms, own, promised, shown)
}

fn binding(row: u32) -> BindingId {
    BindingId {
        what: What::Function,
        at: Ref { library: 2, row },
    }
}

fn is_undefined(table: &ModuleTable, expected: Option<&str>) -> bool {
    match (table.undefined(), expected) {
        (Some((name, _)), Some(expected)) => name.bytes() == expected.as_bytes(),
        (None, None) => true,
        _ => false,
    }
}

/// Whether a table answers so.
pub(crate) fn answers(
    alloc: Global,
    table: &mut ModuleTable,
    step: &Step,
) -> Result<bool, AllocError> {
    match step {
        Step::Define(number, name, row, expected) => {
            let name = fold(alloc, name.as_bytes())?;
            Ok(table.define(alloc, *number, &name, binding(*row))? == *expected)
        }
        Step::Owner(number, name, row) => {
            let name = fold(alloc, name.as_bytes())?;
            Ok(table.owner(*number, &name) == row.map(binding))
        }
        Step::Undefined(expected) => Ok(is_undefined(table, *expected)),
    }
}

/// The exported names of all exported modules, each with its definition's row and a blank behind.
pub(crate) fn shown_names(alloc: Global, table: &ModuleTable) -> Result<String, AllocError> {
    let mut out = String::new(alloc);
    let exports = table.exports(alloc)?;
    for (_module, names) in exports.as_slice() {
        for (name, id) in names.as_slice() {
            for byte in name.bytes() {
                out.push(char::from(*byte))?;
            }
            let row = format!(in alloc; " {} ", id.at.row)?;
            out.push_str(row.as_str())?;
        }
    }
    Ok(out)
}
