//! The generic functions that forms define or make.

ghost use Rattle.std.specs.Prelude.{◌≡◌, ◌++◌, map, flat_map, zip, OnOk, IfOk, false};
ghost use Rattle.dy_tree.specs.declared.token.Token.{Token};
ghost use Rattle.dy_term.specs.Drafts.{seen_lambda};
ghost use Rattle.dy_term.specs.Rows.{seen_slot, seen_draft};
ghost use Rattle.dy_assembly.specs.Generics.{number_in, made, made_by_method, made_by_slot};
ghost use Rattle.dy_assembly.specs.Generics.{made_by, defined_by, offers, generics_of};
ghost use Rattle.dy_assembly.specs.Gathered.{with_row, with_offer, gathered};
ghost use Rattle.dy_assembly.specs.Seen.{seen_token};

use dy_base::{BindingId, Items, Place, What, fold};
use dy_generics::plain_generic;
use dy_names::Environment;
use dy_term::{Draft, DraftLambda, DraftSlot, GenericRow};
use dy_tree::Token;
use std::alloc::{AllocError, Global};
use std::collections::BTreeMap;

/// The number of a generic function among those of this library, if it is one of them.
fn number_in(library: u32, owner: Option<BindingId>) -> Option<u32>
    ensures { result ≡ number_in library owner }
{
    let binding = owner?;
    match binding.what {
        What::Generic => {
            if binding.at.library == library {
                Some(binding.at.row)
            } else {
                None
            }
        }
        What::Class | What::Variable | What::Constant | What::Function | What::Macro => None,
    }
}

/// Gives a number a row, where it has none.
fn add(rows: &mut BTreeMap<u32, GenericRow>, number: u32, row: GenericRow) -> Result<(), AllocError>
    ensures { OnOk result (rows.new.entries ≡ with_row rows.old.entries number row) }
{
    if !rows.contains_key(&number) {
        rows.insert(number, row)?;
    }
    Ok(())
}

/// Gives the generic function of a name a row, where it has none and is one of this library.
fn offer<E: Environment>(
    alloc: Global,
    environment: &E,
    library: u32,
    name: &Token,
    row: GenericRow,
    rows: &mut BTreeMap<u32, GenericRow>,
) -> Result<(), AllocError>
    ensures { OnOk result (rows.new.entries ≡ with_offer rows.old.entries
        (number_in library ((E.outside environment.now).owner name.now)) row) }
{
    let owner = environment.owner(alloc, name)?;
    match number_in(library, owner) {
        Some(number) => add(rows, number, row),
        None => Ok(()),
    }
}

/// The generic function that is made for a name.
fn made(
    alloc: Global,
    name: &Token,
    count: usize,
    rest: bool,
    has_keys: bool,
) -> Result<GenericRow, AllocError>
    ensures { IfOk result (λ row. (name.now, row) ≡ made name.now count rest has_keys) }
{
    let folded = fold(alloc, name.text.bytes())?;
    plain_generic(alloc, &folded, count, rest, has_keys)
}

/// The generic function that a method makes.
fn made_by_method(alloc: Global, name: &Token, code: &DraftLambda) -> Result<GenericRow, AllocError>
    ensures { IfOk result (λ row. (name.now, row)
        ≡ made_by_method name.now (seen_lambda code.now)) }
{
    let params = &code.params;
    made(
        alloc,
        name,
        params.required.len(),
        params.rest.is_some(),
        params.keys.is_some(),
    )
}

/// Offers the generic functions of a slot.
fn offer_slot<E: Environment>(
    alloc: Global,
    environment: &E,
    library: u32,
    slot: &DraftSlot,
    rows: &mut BTreeMap<u32, GenericRow>,
) -> Result<(), AllocError>
    ensures { OnOk result (rows.new.entries
        ≡ gathered library (E.outside environment.now).owner rows.old.entries
        (made_by_slot (seen_slot slot.now))) }
{
    let getter = made(alloc, &slot.getter, 1, false, false)?;
    offer(alloc, environment, library, &slot.getter, getter, rows)?;
    match &slot.setter {
        Some(name) => {
            let setter = made(alloc, name, 2, false, false)?;
            offer(alloc, environment, library, name, setter, rows)
        }
        None => Ok(()),
    }
}

fn offer_slots<E: Environment>(
    alloc: Global,
    environment: &E,
    library: u32,
    slots: &Vec<DraftSlot>,
    rows: &mut BTreeMap<u32, GenericRow>,
) -> Result<(), AllocError>
    ensures { OnOk result (rows.new.entries
        ≡ gathered library (E.outside environment.now).owner rows.old.entries
        (flat_map made_by_slot (map seen_slot slots.now.items))) }
{
    for slot in slots {
        offer_slot(alloc, environment, library, slot, rows)?;
    }
    Ok(())
}

/// Offers the generic functions that a form makes.
fn offer_made<E: Environment>(
    alloc: Global,
    environment: &E,
    library: u32,
    draft: &Draft,
    rows: &mut BTreeMap<u32, GenericRow>,
) -> Result<(), AllocError>
    ensures { OnOk result (rows.new.entries
        ≡ gathered library (E.outside environment.now).owner rows.old.entries
        (made_by (seen_draft draft.now))) }
{
    match draft {
        Draft::Class(class) => offer_slots(alloc, environment, library, &class.slots, rows),
        Draft::Method(method) => {
            let row = made_by_method(alloc, &method.generic, &method.code)?;
            offer(alloc, environment, library, &method.generic, row, rows)
        }
        Draft::Generic(_) | Draft::Domain(_) | Draft::Variable(_) | Draft::Top(_) => Ok(()),
    }
}

/// Offers the generic functions that forms make.
fn offer_all_made<E: Environment>(
    alloc: Global,
    environment: &E,
    library: u32,
    forms: &[(Place, Draft)],
    rows: &mut BTreeMap<u32, GenericRow>,
) -> Result<(), AllocError>
    ensures { OnOk result (rows.new.entries
        ≡ gathered library (E.outside environment.now).owner rows.old.entries
        (flat_map made_by (map (λ f. seen_draft f.1) forms.now))) }
{
    for (_place, draft) in forms {
        offer_made(alloc, environment, library, draft, rows)?;
    }
    Ok(())
}

/// The names of the generic functions that forms define.
fn defined_names(alloc: Global, forms: &[(Place, Draft)]) -> Result<Vec<&Token>, AllocError>
    ensures { IfOk result (λ names. map seen_token names.items
        ≡ flat_map defined_by (map (λ f. seen_draft f.1) forms.now)) }
{
    let mut names = Vec::new(alloc);
    for (_place, draft) in forms {
        if let Draft::Generic(generic) = draft {
            names.push(&generic.name)?;
        }
    }
    Ok(names)
}

/// Offers the generic functions that forms define, which have these names and rows.
fn offer_defined<E: Environment>(
    alloc: Global,
    environment: &E,
    library: u32,
    names: &[&Token],
    defined: Items<GenericRow>,
    rows: &mut BTreeMap<u32, GenericRow>,
) -> Result<(), AllocError>
    ensures { OnOk result (rows.new.entries
        ≡ gathered library (E.outside environment.now).owner rows.old.entries
        (zip (map seen_token names.now) defined)) }
{
    for (name, row) in names.iter().zip(defined.into_vec()) {
        offer(alloc, environment, library, name, row, rows)?;
    }
    Ok(())
}

/// The rows of a table, in the order of their numbers.
fn in_order(alloc: Global, rows: BTreeMap<u32, GenericRow>) -> Result<Items<GenericRow>, AllocError>
    ensures { IfOk result (λ all. all ≡ map (λ e. e.1) rows.entries) }
{
    let mut all = Items::new(alloc);
    for (_number, row) in rows {
        all.push(row)?;
    }
    Ok(all)
}

/// The generic functions of a library whose forms these are, in the order of their numbers. Those
/// that the forms define have these rows.
pub(crate) fn generics_of<E: Environment>(
    alloc: Global,
    environment: &E,
    library: u32,
    forms: &[(Place, Draft)],
    defined: Items<GenericRow>,
) -> Result<Items<GenericRow>, AllocError>
    ensures { IfOk result (λ generics. generics
        ≡ generics_of library (E.outside environment.now).owner
        (map (λ f. seen_draft f.1) forms.now) defined) }
{
    let mut rows = BTreeMap::new(alloc);
    let names = defined_names(alloc, forms)?;
    offer_defined(alloc, environment, library, &names, defined, &mut rows)?;
    offer_all_made(alloc, environment, library, forms, &mut rows)?;
    in_order(alloc, rows)
}
