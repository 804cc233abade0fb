//! Class rows, where libraries are at other places.

ghost use Rattle.std.specs.Prelude.{◌≡◌, IfOk, map};
ghost use Rattle.dy_lowered.specs.Linking.{linked_class};
ghost use Rattle.dy_seen_rows.specs.Places.{placed};
ghost use Rattle.dy_seen_rows.specs.Rows as spec;
ghost use Rattle.dy_seen_rows.specs.Rows.{linked_class_row, linked_class_rows};

use crate::places::Places;
use dy_base::{ClassId, ClassOrder, Items, Ref, fold};
use dy_term::{ClassRow, LibraryRow};
use std::alloc::{AllocError, Global};

pub(crate) fn link_class(places: &Places, class: ClassId) -> ClassId
    ensures { result ≡ linked_class (placed places.now) class }
{
    ClassId(Ref {
        library: places.at(class.0.library),
        row: class.0.row,
    })
}

/// Superclasses.
fn link_classes(
    alloc: Global,
    places: &Places,
    classes: &[ClassId],
) -> Result<Items<ClassId>, AllocError>
    ensures { IfOk result (λ linked. linked ≡ map (linked_class (placed places.now)) classes.now) }
{
    let mut linked = Items::new(alloc);
    for class in classes {
        linked.push(link_class(places, *class))?;
    }
    Ok(linked)
}

/// The order of a class.
fn link_order(alloc: Global, places: &Places, order: &ClassOrder) -> Result<ClassOrder, AllocError>
    ensures { IfOk result (λ linked. linked ≡ map (linked_class (placed places.now)) order.now) }
{
    let mut linked = Vec::new(alloc);
    for class in order.as_slice() {
        linked.push(link_class(places, *class))?;
    }
    ClassOrder::from_vec(alloc, linked)
}

/// The row of a class, without its slots.
fn link_class_row(alloc: Global, places: &Places, class: &ClassRow) -> Result<ClassRow, AllocError>
    ensures { IfOk result (λ linked. linked ≡ linked_class_row (placed places.now) class.now) }
{
    Ok(ClassRow {
        name: fold(alloc, class.name.bytes())?,
        supers: link_classes(alloc, places, class.supers.as_slice())?,
        order: link_order(alloc, places, &class.order)?,
        is_open: class.is_open,
        is_abstract: class.is_abstract,
        is_primary: class.is_primary,
        slots: Items::new(alloc),
    })
}

/// A copy of class rows, where libraries are at these places. It has no slots yet. The time grows
/// with the names, the superclasses and the orders of the classes; an order is sorted anew.
pub fn link_class_rows(
    alloc: Global,
    places: &Places,
    classes: &[ClassRow],
) -> Result<Items<ClassRow>, AllocError>
    ensures { IfOk result
        (λ linked. linked ≡ linked_class_rows (placed places.now) classes.now) }
{
    let mut linked = Items::new(alloc);
    for class in classes {
        linked.push(link_class_row(alloc, places, class)?)?;
    }
    Ok(linked)
}

/// A copy of what others see of the classes of a library, by the places of its own view.
pub fn classes_of(alloc: Global, library: &LibraryRow) -> Result<Items<ClassRow>, AllocError>
    ensures { IfOk result (λ classes. classes ≡ spec.classes_of library.now) }
{
    link_class_rows(alloc, &Places::Kept, library.classes.as_slice())
}
