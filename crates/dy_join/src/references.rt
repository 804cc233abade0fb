//! References to rows, where libraries are at their places in the program.

ghost use Rattle.std.specs.Prelude.{◌≡◌, IfOk, map};
ghost use Rattle.std.specs.Option.{option_map};
ghost use Rattle.dy_lowered.specs.Linking.{linked_ref, linked_name, linked_class, linked_method};
ghost use Rattle.dy_lowered.specs.Linking.{linked_bound};
ghost use Rattle.dy_linked_rows.specs.Terms.{linked_generic};
ghost use Rattle.dy_join.specs.Numbering.{placed};

use crate::places::Places;
use dy_base::{BindingId, ClassId, ClassOrder, GenericId, Items, MethodId, Ref};
use std::alloc::{AllocError, Global};

fn link_ref(places: &Places, at: Ref) -> Ref
    ensures { result ≡ linked_ref (placed places.now) at }
{
    Ref {
        library: places.at(at.library),
        row: at.row,
    }
}

fn link_name(places: &Places, named: BindingId) -> BindingId
    ensures { result ≡ linked_name (placed places.now) named }
{
    BindingId {
        what: named.what,
        at: link_ref(places, named.at),
    }
}

pub(crate) fn link_class(places: &Places, class: ClassId) -> ClassId
    ensures { result ≡ linked_class (placed places.now) class }
{
    ClassId(link_ref(places, class.0))
}

pub(crate) fn link_generic(places: &Places, generic: GenericId) -> GenericId
    ensures { result ≡ linked_generic (placed places.now) generic }
{
    GenericId(link_ref(places, generic.0))
}

/// The generic function of a slot's setter, if it has one.
pub(crate) fn link_setter(places: &Places, setter: Option<GenericId>) -> Option<GenericId>
    ensures { result ≡ option_map (linked_generic (placed places.now)) setter }
{
    match setter {
        None => None,
        Some(generic) => Some(link_generic(places, generic)),
    }
}

fn link_method(places: &Places, method: MethodId) -> MethodId
    ensures { result ≡ linked_method (placed places.now) method }
{
    MethodId(link_ref(places, method.0))
}

pub(crate) fn link_names(
    alloc: Global,
    places: &Places,
    names: Items<BindingId>,
) -> Result<Items<BindingId>, AllocError>
    ensures { IfOk result (λ linked. linked ≡ map (linked_name (placed places.now)) names) }
{
    let mut linked = Items::new(alloc);
    for named in names.into_vec() {
        linked.push(link_name(places, named))?;
    }
    Ok(linked)
}

fn link_methods(
    alloc: Global,
    places: &Places,
    methods: Items<MethodId>,
) -> Result<Items<MethodId>, AllocError>
    ensures { IfOk result (λ linked. linked ≡ map (linked_method (placed places.now)) methods) }
{
    let mut linked = Items::new(alloc);
    for method in methods.into_vec() {
        linked.push(link_method(places, method))?;
    }
    Ok(linked)
}

fn link_bound(
    alloc: Global,
    places: &Places,
    methods: (Items<MethodId>, Items<MethodId>),
) -> Result<(Items<MethodId>, Items<MethodId>), AllocError>
    ensures { IfOk result (λ linked. linked ≡ linked_bound (placed places.now) methods) }
{
    let (sorted, ambiguous) = methods;
    let sorted = link_methods(alloc, places, sorted)?;
    let ambiguous = link_methods(alloc, places, ambiguous)?;
    Ok((sorted, ambiguous))
}

/// Lists of sorted methods.
pub(crate) fn link_bounds(
    alloc: Global,
    places: &Places,
    bounds: Items<(Items<MethodId>, Items<MethodId>)>,
) -> Result<Items<(Items<MethodId>, Items<MethodId>)>, AllocError>
    ensures { IfOk result (λ linked. linked ≡ map (linked_bound (placed places.now)) bounds) }
{
    let mut linked = Items::new(alloc);
    for methods in bounds.into_vec() {
        linked.push(link_bound(alloc, places, methods)?)?;
    }
    Ok(linked)
}

/// Superclasses.
pub(crate) fn link_classes(
    alloc: Global,
    places: &Places,
    classes: Items<ClassId>,
) -> Result<Items<ClassId>, AllocError>
    ensures { IfOk result (λ linked. linked ≡ map (linked_class (placed places.now)) classes) }
{
    let mut linked = Items::new(alloc);
    for class in classes.into_vec() {
        linked.push(link_class(places, class))?;
    }
    Ok(linked)
}

/// The order of a class.
pub(crate) fn link_order(
    alloc: Global,
    places: &Places,
    order: &ClassOrder,
) -> Result<ClassOrder, AllocError>
    ensures { IfOk result (λ linked. linked ≡ map (linked_class (placed places.now)) order.now) }
{
    let mut linked = Vec::new(alloc);
    for class in order.as_slice() {
        linked.push(link_class(places, *class))?;
    }
    ClassOrder::from_vec(alloc, linked)
}

/// The libraries that a library uses.
pub(crate) fn link_uses(
    alloc: Global,
    places: &Places,
    uses: Items<u32>,
) -> Result<Items<u32>, AllocError>
    ensures { IfOk result (λ linked. linked ≡ map (placed places.now) uses) }
{
    let mut linked = Items::new(alloc);
    for library in uses.into_vec() {
        linked.push(places.at(library))?;
    }
    Ok(linked)
}
