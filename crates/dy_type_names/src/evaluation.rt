//! What the type constants of a library stand for.

ghost use Rattle.std.specs.Prelude.{◌≡◌, ◌↔◌, ℕ, ◌<◌, ◌≤◌, true, [], ◌++◌, map, length, replicate};
ghost use Rattle.std.specs.Prelude.{slice_get, Some, IfOk, OnOk};
ghost use Rattle.dy_base.specs.declared.ids.BindingId.{BindingId};
ghost use Rattle.dy_term.specs.Types.{seen_type};
ghost use Rattle.dy_term.specs.Rows.{seen_draft};
ghost use Rattle.dy_type_names.specs.Constants.{constants_of, ring_told};
ghost use Rattle.dy_rings.specs.Rings.{Leads, IsBehindUsed};
ghost use Rattle.dy_type_names.specs.declared.standing.Standing.TheVariants.{NoType};
ghost use Rattle.dy_type_names.specs.RowTables.{seen_written, declared_at, uses_of, truth, told_at};
ghost use Rattle.dy_type_names.specs.RowTables.{told_on};
ghost use Rattle.dy_type_names.specs.Evaluations.{with_row, AreEvaluated};
ghost use Rattle.dy_type_names.specs.Standings.{rows_in, standing_in, IsThere, AreTold};

use crate::constants_read::constants_of;
use crate::reading::{not_a_type, standing_of};
use crate::row_table::{RowTable, table_of, uses_of};
use crate::standing::{NamedTypes, Standing};
use dy_base::{Fault, Items, Place};
use dy_names::Environment;
use dy_rings::{Rings, find_rings};
use dy_term::{Draft, DraftType};
use std::alloc::{AllocError, Global};

/// What the type constants of libraries stand for, and what is told of those of the last one.
#[derive(Drop)]
pub struct TypeConstants {
    pub types: NamedTypes,
    /// `NotAType` of each that is on a ring, in the order of the text.
    pub faults: Items<Fault>,
}

/// Adds empty libraries, up to so many.
fn reach(alloc: Global, types: &mut NamedTypes, library: u32) -> Result<(), AllocError>
    requires { length (rows_in types.now) ≤ library }
    ensures standing { OnOk result ((b : BindingId)
        → standing_in types.new b ≡ standing_in types.old b) }
    ensures reached { OnOk result (length (rows_in types.new) ≡ library) }
{
    while types.len() < library as usize {
        types.push(Vec::new(alloc))?;
    }
    Ok(())
}

/// So many rows of which none is a type constant.
fn empty_rows(alloc: Global, count: usize) -> Result<Vec<Standing>, AllocError>
    ensures { IfOk result (λ rows. rows.items ≡ replicate count NoType) }
{
    let mut rows = Vec::new(alloc);
    for _row in 0..count {
        rows.push(Standing::NoType)?;
    }
    Ok(rows)
}

/// Adds a library of so many rows, of which none is a type constant, at this place.
fn add_rows(
    alloc: Global,
    types: &mut NamedTypes,
    library: u32,
    count: usize,
) -> Result<(), AllocError>
    requires { length (rows_in types.now) ≤ library }
    ensures standing { OnOk result ((b : BindingId)
        → standing_in types.new b ≡ standing_in types.old b) }
    ensures there { OnOk result ((row : ℕ) → row < count
        → IsThere library row (rows_in types.new)) }
{
    reach(alloc, types, library)?;
    let rows = empty_rows(alloc, count)?;
    types.push(rows)
}

/// Evaluates the constant of a row behind others.
fn evaluate_row<E: Environment>(
    alloc: Global,
    names: &E,
    library: u32,
    row: u32,
    declared: Option<&DraftType>,
    is_on_ring: bool,
    types: &mut NamedTypes,
) -> Result<(), AllocError>
    requires { IsThere library row (rows_in types.now) }
    ensures standing { OnOk result ((b : BindingId) → standing_in types.new b
        ≡ with_row (E.outside names.now).owner library row is_on_ring (seen_written declared.entry)
        (standing_in types.old) b) }
    ensures there { OnOk result ((n : ℕ) → IsThere library n (rows_in types.old)
        → IsThere library n (rows_in types.new)) }
{
    if let Some(draft) = declared {
        let standing = if is_on_ring {
            Standing::Faulty
        } else {
            standing_of(alloc, names, types, draft)?
        };
        types.set(library, row, standing);
    }
    Ok(())
}

/// Evaluates the constants of a library, one after the other.
fn evaluate<E: Environment>(
    alloc: Global,
    names: &E,
    library: u32,
    written: &[Option<&DraftType>],
    found: &Rings,
    types: &mut NamedTypes,
) -> Result<(), AllocError>
    requires count { length found.now.on_ring ≡ length written.now }
    requires rings { (i : ℕ) → (slice_get found.now.on_ring i ≡ Some true)
        ↔ Leads (uses_of (E.outside names.now).owner library (map seen_written written.now)) i i }
    requires order { IsBehindUsed
        (uses_of (E.outside names.now).owner library (map seen_written written.now))
        found.now.order }
    requires there { (row : ℕ) → row < length written.now
        → IsThere library row (rows_in types.now) }
    ensures { OnOk result (AreEvaluated (E.outside names.now).owner library
        (map seen_written written.now) found.now.on_ring found.now.order
        (standing_in types.old) (standing_in types.new)) }
{
    for row in found.order.as_slice() {
        let place = *row as usize;
        let declared = written[place];
        let is_on_ring = found.on_ring.as_slice()[place];
        evaluate_row(alloc, names, library, *row, declared, is_on_ring, types)?;
    }
    Ok(())
}

/// What is told of a constant on a ring, which is written as this type.
fn tell_ring(alloc: Global, draft: &DraftType, faults: &mut Items<Fault>) -> Result<(), AllocError>
    ensures { OnOk result (faults.new ≡ faults.old ++ ring_told (seen_type draft.now)) }
{
    match draft {
        DraftType::Name(token) => faults.push(not_a_type(alloc, token)?)?,
        DraftType::Union(token, _) => faults.push(not_a_type(alloc, token)?)?,
        DraftType::Object
        | DraftType::Integer
        | DraftType::Single(_)
        | DraftType::SingleName(_, _)
        | DraftType::Range(_, _, _) => {}
    }
    Ok(())
}

fn is_on(on_ring: &[bool], row: u32) -> bool
    ensures { result ≡ truth (slice_get on_ring.now row) }
{
    match on_ring.get(row as usize) {
        None => false,
        Some(is) => *is,
    }
}

fn declared_in<'a>(written: &[Option<&'a DraftType>], row: u32) -> Option<&'a DraftType>
    ensures { seen_written result ≡ declared_at (map seen_written written.now) row }
{
    match written.get(row as usize) {
        None => None,
        Some(declared) => *declared,
    }
}

/// What is told of a constant that is written as this type, if it is on a ring.
fn tell_row(
    alloc: Global,
    declared: Option<&DraftType>,
    is_on_ring: bool,
    faults: &mut Items<Fault>,
) -> Result<(), AllocError>
    ensures { OnOk result
        (faults.new ≡ faults.old ++ told_at is_on_ring (seen_written declared.entry)) }
{
    if is_on_ring {
        match declared {
            None => Ok(()),
            Some(draft) => tell_ring(alloc, draft, faults),
        }
    } else {
        Ok(())
    }
}

/// What is told of the constants on rings, in the order of the text.
fn told_on_rings(
    alloc: Global,
    table: &RowTable<'_>,
    on_ring: &[bool],
) -> Result<Items<Fault>, AllocError>
    ensures { IfOk result (λ faults. faults
        ≡ told_on (map seen_written table.now.written.items) on_ring.now table.now.rows.items) }
{
    let mut faults = Items::new(alloc);
    for row in &table.rows {
        let declared = declared_in(table.written.as_slice(), *row);
        let is_on_ring = is_on(on_ring, *row);
        tell_row(alloc, declared, is_on_ring, &mut faults)?;
    }
    Ok(faults)
}

/// What the type constants of a library stand for, added to what those of other libraries stand
/// for, and what is told of those on rings. The library stands at this place, behind all others. In
/// the types that the constants are written as, names mean what they mean outside of bodies. It
/// takes time in proportion to the text, and to the greatest row of a constant.
pub fn type_constants<E: Environment>(
    alloc: Global,
    names: &E,
    library: u32,
    forms: &[(Place, Draft)],
    types: NamedTypes,
) -> Result<TypeConstants, AllocError>
    requires { length (rows_in types) ≤ library }
    ensures { IfOk result (λ found. AreTold (E.outside names.now).owner library
        (constants_of (map (λ f. (f.0, seen_draft f.1)) forms.now)) (standing_in types)
        (standing_in found.types) found.faults) }
{
    let constants = constants_of(alloc, forms)?;
    let table = table_of(alloc, names, library, constants.as_slice())?;
    let uses = uses_of(alloc, names, library, table.written.as_slice())?;
    let found = find_rings(alloc, uses.as_slice())?;
    let mut types = types;
    add_rows(alloc, &mut types, library, table.written.len())?;
    evaluate(
        alloc,
        names,
        library,
        table.written.as_slice(),
        &found,
        &mut types,
    )?;
    let faults = told_on_rings(alloc, &table, found.on_ring.as_slice())?;
    Ok(TypeConstants { types, faults })
}
