//! The type constants of a library by their rows, and which uses which.

ghost use Rattle.std.specs.Prelude.{◌≡◌, ℕ, ◌<◌, ◌≤◌, ◌^◌, ◌++◌, [], map, length, IfOk, OnOk};
ghost use Rattle.std.specs.Prelude.{List, ◌∷◌, if◌then◌else◌, ◌==◌, Some};
ghost use Rattle.dy_term.specs.Types.{seen_type, types_of};
ghost use Rattle.dy_tree.specs.declared.token.Token.{Token};
ghost use Rattle.dy_names.specs.Naming.{Table};
ghost use Rattle.dy_type_names.specs.Constants.{Constant, names_in, names_of, row_owned};
ghost use Rattle.dy_type_names.specs.RowTables.{declared_at, row_if_new, kept_or, used_row};
ghost use Rattle.dy_type_names.specs.RowTables.{IsTable};
ghost use Rattle.dy_type_names.specs.RowTables.{rows_used, uses_at, uses_of, seen_written};
ghost use Rattle.dy_type_names.specs.RowTables.{seen_constant};

use crate::constants_read::row_owned;
use dy_base::{BindingId, Items};
use dy_names::Environment;
use dy_term::DraftType;
use dy_tree::Token;
use std::alloc::{AllocError, Global};

/// The type constants of a library.
#[derive(Drop)]
pub(crate) struct RowTable<'a> {
    /// What the constant of each row is written as.
    pub written: Vec<Option<&'a DraftType>>,
    /// The rows, in the order of the text.
    pub rows: Vec<u32>,
}

/// Adds empty rows, up to so many.
fn reach(written: &mut Vec<Option<&DraftType>>, count: usize) -> Result<(), AllocError>
    ensures at { OnOk result ((row : ℕ) → declared_at (map seen_written written.new.items) row
        ≡ declared_at (map seen_written written.old.items) row) }
    ensures reached { OnOk result (count ≤ length written.new.items) }
    ensures least { OnOk result (length written.old.items < 2 ^ 32 → count < 2 ^ 32
        → length written.new.items < 2 ^ 32) }
{
    for _row in written.len()..count {
        written.push(None)?;
    }
    Ok(())
}

impl<'a> RowTable<'a> {
    /// Puts what the constant of a row is written as, where none is there.
    fn add(&mut self, row: u32, declared: &'a DraftType) -> Result<(), AllocError>
        requires { length self.now.written.items < 2 ^ 32 }
        ensures at { OnOk result ((n : ℕ) → declared_at (map seen_written self.new.written.items) n
            ≡ (if row == n
            then Some (kept_or (declared_at (map seen_written self.old.written.items) row)
            (seen_type declared.now))
            else declared_at (map seen_written self.old.written.items) n)) }
        ensures rows { OnOk result (self.new.rows.items ≡ self.old.rows.items
            ++ row_if_new (declared_at (map seen_written self.old.written.items) row) row) }
        ensures least { OnOk result (length self.new.written.items < 2 ^ 32) }
    {
        let place = row as usize;
        if row == u32::MAX {
            return Err(AllocError);
        }
        reach(&mut self.written, place + 1)?;
        if self.written[place].is_none() {
            self.written[place] = Some(declared);
            self.rows.push(row)?;
        }
        Ok(())
    }

    /// Puts what a constant of this owner is written as, where it is of a row and none is there.
    fn put(
        &mut self,
        library: u32,
        owner: Option<BindingId>,
        declared: &'a DraftType,
    ) -> Result<(), AllocError>
        requires { length self.now.written.items < 2 ^ 32 }
        ensures { OnOk result ((table : Table) (constants : List Constant) (name : Token)
            → table name ≡ owner
            → IsTable table library constants (map seen_written self.old.written.items)
            self.old.rows.items
            → IsTable table library (constants ++ (name, seen_type declared.now) ∷ [])
            (map seen_written self.new.written.items) self.new.rows.items) }
    {
        match row_owned(library, owner) {
            None => Ok(()),
            Some(row) => {
                self.add(row, declared)?;
                Ok(())
            }
        }
    }
}

/// The type constants of a library, of which the first of a row counts. The one error is want of
/// memory, or of numbers for rows.
pub(crate) fn table_of<'a, E: Environment>(
    alloc: Global,
    names: &E,
    library: u32,
    constants: &[(&'a Token, &'a DraftType)],
) -> Result<RowTable<'a>, AllocError>
    ensures { IfOk result (λ table. IsTable (E.outside names.now).owner library
        (map seen_constant constants.now) (map seen_written table.written.items)
        table.rows.items) }
{
    let mut table = RowTable {
        written: Vec::new(alloc),
        rows: Vec::new(alloc),
    };
    for (name, declared) in constants {
        let owner = names.owner(alloc, name)?;
        table.put(library, owner, declared)?;
    }
    Ok(table)
}

fn add_owner(
    library: u32,
    written: &[Option<&DraftType>],
    owner: Option<BindingId>,
    used: &mut Items<u32>,
) -> Result<(), AllocError>
    ensures { OnOk result (used.new ≡ used.old
        ++ used_row (map seen_written written.now) (row_owned library owner)) }
{
    if let Some(row) = row_owned(library, owner) {
        if let Some(Some(_)) = written.get(row as usize) {
            used.push(row)?;
        }
    }
    Ok(())
}

/// Adds the rows that a type uses.
#[cycle(uses)]
fn add_uses<E: Environment>(
    alloc: Global,
    names: &E,
    library: u32,
    written: &[Option<&DraftType>],
    draft: &DraftType,
    used: &mut Items<u32>,
) -> Result<(), AllocError>
    ensures { OnOk result (used.new ≡ used.old ++ rows_used (E.outside names.now).owner library
        (map seen_written written.now) (names_in (seen_type draft.now))) }
{
    match draft {
        DraftType::Name(name) => {
            let owner = names.owner(alloc, name)?;
            add_owner(library, written, owner, used)
        }
        DraftType::Union(_, parts) => add_uses_of(alloc, names, library, written, parts, used),
        DraftType::Object
        | DraftType::Integer
        | DraftType::Single(_)
        | DraftType::SingleName(_, _)
        | DraftType::Range(_, _, _) => Ok(()),
    }
}

/// Adds the rows that the parts of a union use.
#[cycle(uses)]
fn add_uses_of<E: Environment>(
    alloc: Global,
    names: &E,
    library: u32,
    written: &[Option<&DraftType>],
    parts: &Vec<DraftType>,
    used: &mut Items<u32>,
) -> Result<(), AllocError>
    ensures { OnOk result (used.new ≡ used.old ++ rows_used (E.outside names.now).owner library
        (map seen_written written.now) (names_of (types_of (map seen_type parts.now.items)))) }
{
    for part in parts {
        add_uses(alloc, names, library, written, part, used)?;
    }
    Ok(())
}

/// The rows that a constant uses, which is written as this type.
fn uses_at<E: Environment>(
    alloc: Global,
    names: &E,
    library: u32,
    written: &[Option<&DraftType>],
    declared: Option<&DraftType>,
) -> Result<Items<u32>, AllocError>
    ensures { IfOk result (λ used. used ≡ uses_at (E.outside names.now).owner library
        (map seen_written written.now) (seen_written declared.entry)) }
{
    let mut used = Items::new(alloc);
    match declared {
        None => Ok(used),
        Some(draft) => {
            add_uses(alloc, names, library, written, draft, &mut used)?;
            Ok(used)
        }
    }
}

/// The rows that the constant of each row uses.
pub(crate) fn uses_of<E: Environment>(
    alloc: Global,
    names: &E,
    library: u32,
    written: &[Option<&DraftType>],
) -> Result<Vec<Items<u32>>, AllocError>
    ensures { IfOk result (λ uses. uses.items
        ≡ uses_of (E.outside names.now).owner library (map seen_written written.now)) }
{
    let mut uses = Vec::new(alloc);
    for declared in written {
        let used = uses_at(alloc, names, library, written, *declared)?;
        uses.push(used)?;
    }
    Ok(uses)
}
