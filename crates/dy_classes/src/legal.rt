//! Which classes are legal.

ghost use Rattle.std.specs.Prelude.{◌≡◌, ◌++◌, IfOk, MatchOption, MatchResult};
ghost use Rattle.dy_classes.specs.Lists.{Once};
ghost use Rattle.dy_classes.specs.Rows.{order_at};
ghost use Rattle.dy_classes.specs.Merge.{find, mem};
ghost use Rattle.dy_classes.specs.Legal.{primary_at, slots_at, getters_of, getters, Repeated};
ghost use Rattle.dy_classes.specs.Legal.{IsLegal, SlotRefused, ClassRefused, AllStored};
ghost use Rattle.dy_classes.specs.Search.{clashes, first_pair, has_generic};

use crate::faults::{refused, refused_slot};
use crate::rows::{order_of, row_of};
use dy_base::{ClassId, GenericId, Kind, Refusal};
use dy_term::{Program, SlotRow};
use std::alloc::{AllocError, Global};

fn is_primary(program: &Program, class: ClassId) -> bool
    ensures { result ≡ primary_at program.now class }
{
    match row_of(program, class) {
        Some(row) => row.is_primary,
        None => false,
    }
}

fn slots_of(program: &Program, class: ClassId) -> &[SlotRow]
    ensures { result.now ≡ slots_at program.now class }
{
    match row_of(program, class) {
        Some(row) => row.slots.as_slice(),
        None => &[],
    }
}

/// Whether the order of a class lists another.
fn lists(program: &Program, class: ClassId, other: ClassId) -> bool
    ensures { result ≡ mem other (order_at program.now class) }
{
    match row_of(program, class) {
        Some(row) => row.order.holds(other),
        None => false,
    }
}

/// Whether both classes are primary, and neither is above the other.
fn clash(program: &Program, first: ClassId, second: ClassId) -> bool
    ensures { result ≡ clashes program.now first second }
{
    if !is_primary(program, first) {
        return false;
    }
    if !is_primary(program, second) {
        return false;
    }
    if lists(program, first, second) {
        return false;
    }
    !lists(program, second, first)
}

/// The first of the others with which a class clashes.
fn first_other(program: &Program, class: ClassId, others: &[ClassId]) -> Option<ClassId>
    ensures { result ≡ find (clashes program.now class) others.now }
{
    if !is_primary(program, class) {
        return None;
    }
    for other in others {
        if clash(program, class, *other) {
            return Some(*other);
        }
    }
    None
}

/// The first two classes of a list that clash, by the first and then by the second of them.
fn first_clash(program: &Program, classes: &[ClassId]) -> Option<(ClassId, ClassId)>
    ensures { result ≡ first_pair (clashes program.now) classes.now }
{
    for (place, class) in classes.iter().enumerate() {
        if let Some(other) = first_other(program, *class, &classes[place + 1..]) {
            return Some((*class, other));
        }
    }
    None
}

fn is_among(getters: &[GenericId], getter: GenericId) -> bool
    ensures { result ≡ has_generic getter getters.now }
{
    for other in getters {
        if getter == *other {
            return true;
        }
    }
    false
}

/// Adds the getters of slots, up to the first that is there already.
fn add_getters(
    seen: &mut Vec<GenericId>,
    slots: &[SlotRow],
) -> Result<Option<GenericId>, AllocError>
    requires { Once seen.old.items }
    ensures { IfOk result (λ answer. MatchOption answer
        ((seen.new.items ≡ seen.old.items ++ getters_of slots.now) × Once seen.new.items)
        (λ getter. Repeated (seen.old.items ++ getters_of slots.now) getter)) }
{
    for slot in slots {
        if is_among(seen.as_slice(), slot.getter) {
            return Ok(Some(slot.getter));
        }
        seen.push(slot.getter)?;
    }
    Ok(None)
}

/// The first getter that two slots have, in the walk from the last class to the first.
fn repeated_getter(
    alloc: Global,
    program: &Program,
    classes: &[ClassId],
) -> Result<Option<GenericId>, AllocError>
    ensures { IfOk result (λ answer. MatchOption answer
        (Once (getters program.now classes.now))
        (λ getter. Repeated (getters program.now classes.now) getter)) }
{
    let mut seen = Vec::new(alloc);
    let mut place = classes.len();
    while place > 0 {
        place -= 1;
        let found = add_getters(&mut seen, slots_of(program, classes[place]))?;
        if found.is_some() {
            return Ok(found);
        }
    }
    Ok(None)
}

/// Whether no two slots of a class, own or inherited, have one getter.
fn check_slots(alloc: Global, program: &Program, class: ClassId) -> Result<(), Refusal>
    ensures { MatchResult result
        (λ _. Once (getters program.now (order_at program.now class)))
        (λ refusal. SlotRefused program.now class refusal) }
{
    match repeated_getter(alloc, program, order_of(program, class))? {
        Some(getter) => Err(refused_slot(alloc, program, class, getter)),
        None => Ok(()),
    }
}

/// Whether a class whose class precedence list is stored is legal: of any two primary classes among
/// the class and its superclasses one is above the other (DRM 5, "Primary and Free Classes"), and
/// no two of its slots, own or inherited, have one getter (DRM 5, "Slots"; own).
///
/// The class and each of its superclasses must store its order. The refusals are `TwoPrimaries`,
/// which shows the class and the first two unrelated primary classes of its order, by the first and
/// then by the second of them; and else `SlotClash`, which shows the class and the getter of the
/// first slot that repeats one, in the walk from the last class of the order to the class, and of
/// each class in the order of the text. The library and the place are left to the caller.
pub fn check_class(alloc: Global, program: &Program, class: ClassId) -> Result<(), Refusal>
    ensures { AllStored program.now class
        → MatchResult result (λ _. IsLegal program.now class)
        (λ refusal. ClassRefused program.now class refusal) }
{
    match first_clash(program, order_of(program, class)) {
        Some((first, second)) => {
            let shown = [class, first, second];
            Err(refused(alloc, program, &shown, Kind::TwoPrimaries))
        }
        None => check_slots(alloc, program, class),
    }
}
