//! Classes and their slots.

ghost use Rattle.std.specs.Prelude.{◌≡◌, map, option_map, IfOk, OnOk};
ghost use Rattle.dy_base.specs.Folding.{folded};
ghost use Rattle.dy_term.specs.Rows.{seen_init, seen_slot, seen_class};
ghost use Rattle.dy_rows.specs.Rows.{read_init, read_filling, slot_of, read_slot, read_slots};
ghost use Rattle.dy_rows.specs.Rows.{read_class};

use crate::owners::{classes_of, generic_of, has, setter_of};
use dy_base::{ClassOrder, GenericId, Items, Name, fold};
use dy_binding::{Progress, read_type};
use dy_names::{Environment, Scope};
use dy_scope::term;
use dy_term::{ClassRow, DraftClass, DraftInit, DraftSlot, DyType, Init, Row, SlotRow};
use dy_tree::Token;
use std::alloc::{AllocError, Global};

/// The type of a slot, and what fills it.
type Filling = (DyType, Option<Init>);

fn init_of<E: Environment>(
    alloc: Global,
    environment: &E,
    draft: &Option<DraftInit>,
    scope: &mut Scope,
    progress: &mut Progress,
) -> Result<Option<Init>, AllocError>
    ensures init { IfOk result
        (λ found. found ≡ (read_init (E.outside environment.now)
        (option_map seen_init draft.now) scope.old progress.old).0) }
    ensures after { OnOk result
        (progress.new ≡ (read_init (E.outside environment.now)
        (option_map seen_init draft.now) scope.old progress.old).1) }
    ensures same { OnOk result (scope.new ≡ scope.old) }
{
    match draft {
        None => Ok(None),
        Some(DraftInit::Each(draft)) => {
            progress.next = 0;
            Ok(Some(Init::Each(term(alloc, environment, draft, scope, progress)?)))
        }
        Some(DraftInit::Calling(draft)) => {
            progress.next = 0;
            Ok(Some(Init::Calling(term(alloc, environment, draft, scope, progress)?)))
        }
    }
}

fn keyword_of(alloc: Global, keyword: &Option<Token>) -> Result<Option<Name>, AllocError>
    ensures { IfOk result (λ found. found ≡ option_map (λ k. folded k.text) keyword.now) }
{
    match keyword {
        None => Ok(None),
        Some(keyword) => Ok(Some(fold(alloc, keyword.text.bytes())?)),
    }
}

/// Reads the type of a slot, and then what fills it.
fn filling_of<E: Environment>(
    alloc: Global,
    environment: &E,
    draft: &DraftSlot,
    scope: &mut Scope,
    progress: &mut Progress,
) -> Result<Filling, AllocError>
    ensures filling { IfOk result
        (λ found. found ≡ (read_filling (E.outside environment.now)
        (seen_slot draft.now) scope.old progress.old).0) }
    ensures after { OnOk result
        (progress.new ≡ (read_filling (E.outside environment.now)
        (seen_slot draft.now) scope.old progress.old).1) }
    ensures same { OnOk result (scope.new ≡ scope.old) }
{
    let slot_type = read_type(alloc, environment, &draft.slot_type, scope, progress)?;
    let init = init_of(alloc, environment, &draft.init, scope, progress)?;
    Ok((slot_type, init))
}

/// Puts a slot together.
fn slot_of(
    alloc: Global,
    draft: &DraftSlot,
    getter: GenericId,
    setter: Option<GenericId>,
    filling: Filling,
) -> Result<SlotRow, AllocError>
    ensures { IfOk result
        (λ found. found ≡ slot_of (seen_slot draft.now) getter setter filling) }
{
    let keyword = keyword_of(alloc, &draft.keyword)?;
    let (slot_type, init) = filling;
    Ok(SlotRow {
        getter,
        setter,
        kind: draft.kind,
        slot_type,
        keyword,
        required: draft.required,
        init,
    })
}

fn slot_row<E: Environment>(
    alloc: Global,
    environment: &E,
    draft: &DraftSlot,
    scope: &mut Scope,
    progress: &mut Progress,
) -> Result<SlotRow, AllocError>
    ensures slot { IfOk result
        (λ found. found ≡ (read_slot (E.outside environment.now)
        (seen_slot draft.now) scope.old progress.old).0) }
    ensures after { OnOk result
        (progress.new ≡ (read_slot (E.outside environment.now)
        (seen_slot draft.now) scope.old progress.old).1) }
    ensures same { OnOk result (scope.new ≡ scope.old) }
{
    let getter = generic_of(alloc, environment, &draft.getter, progress)?;
    let filling = filling_of(alloc, environment, draft, scope, progress)?;
    let setter = setter_of(alloc, environment, &draft.setter, progress)?;
    slot_of(alloc, draft, getter, setter, filling)
}

fn slot_rows<E: Environment>(
    alloc: Global,
    environment: &E,
    drafts: &Vec<DraftSlot>,
    scope: &mut Scope,
    progress: &mut Progress,
) -> Result<Items<SlotRow>, AllocError>
    ensures slots { IfOk result
        (λ found. found ≡ (read_slots (E.outside environment.now)
        (map seen_slot drafts.now.items) scope.old progress.old).0) }
    ensures after { OnOk result
        (progress.new ≡ (read_slots (E.outside environment.now)
        (map seen_slot drafts.now.items) scope.old progress.old).1) }
    ensures same { OnOk result (scope.new ≡ scope.old) }
{
    let mut slots = Items::new(alloc);
    for draft in drafts {
        slots.push(slot_row(alloc, environment, draft, scope, progress)?)?;
    }
    Ok(slots)
}

/// The row of a class. Its order is found later.
pub fn class_rows<E: Environment>(
    alloc: Global,
    environment: &E,
    draft: &DraftClass,
    scope: &mut Scope,
    progress: &mut Progress,
) -> Result<Items<Row>, AllocError>
    ensures rows { IfOk result
        (λ found. found ≡ (read_class (E.outside environment.now)
        (seen_class draft.now) scope.old progress.old).0) }
    ensures after { OnOk result
        (progress.new ≡ (read_class (E.outside environment.now)
        (seen_class draft.now) scope.old progress.old).1) }
    ensures same { OnOk result (scope.new ≡ scope.old) }
{
    let supers = classes_of(alloc, environment, &draft.supers, progress)?;
    let slots = slot_rows(alloc, environment, &draft.slots, scope, progress)?;
    let mut rows = Items::new(alloc);
    rows.push(Row::Class(ClassRow {
        name: fold(alloc, draft.name.text.bytes())?,
        supers,
        order: ClassOrder::new(alloc),
        is_open: has(b"open", &draft.adjectives),
        is_abstract: has(b"abstract", &draft.adjectives),
        is_primary: has(b"primary", &draft.adjectives),
        slots,
    }))?;
    Ok(rows)
}
