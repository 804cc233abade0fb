//! Refusals of a class.

ghost use Rattle.std.specs.Prelude.{◌≡◌, [], ◌∷◌, map, IfOk};
ghost use Rattle.dy_base.specs.declared.kind.Kind.TheVariants.{SlotClash};
ghost use Rattle.dy_classes.specs.Rows.{name_at};
ghost use Rattle.dy_classes.specs.Legal.{generic_name};
ghost use Rattle.dy_classes.specs.Faults.{class_fault, IsRefused};

use crate::rows::{generic_name_of, name_of};
use dy_base::{ClassId, Fault, GenericId, Items, Kind, Refusal, Text};
use dy_term::Program;
use std::alloc::{AllocError, Global};

/// The names of classes, as a refusal shows them.
fn shown_names(
    alloc: Global,
    program: &Program,
    classes: &[ClassId],
) -> Result<Items<Text>, AllocError>
    ensures { IfOk result (λ names. names ≡ map (name_at program.now) classes.now) }
{
    let mut names = Items::new(alloc);
    for class in classes {
        names.push(Text::of(alloc, name_of(program, *class))?)?;
    }
    Ok(names)
}

/// The names of a class and of a getter.
fn shown_slot(
    alloc: Global,
    program: &Program,
    class: ClassId,
    getter: GenericId,
) -> Result<Items<Text>, AllocError>
    ensures { IfOk result (λ names.
        names ≡ name_at program.now class ∷ generic_name program.now getter ∷ []) }
{
    let mut names = Items::new(alloc);
    names.push(Text::of(alloc, name_of(program, class))?)?;
    names.push(Text::of(alloc, generic_name_of(program, getter))?)?;
    Ok(names)
}

/// A fault without a library and a place, which the caller knows.
fn fault_of(alloc: Global, kind: Kind, shown: Items<Text>) -> Fault
    ensures { result ≡ class_fault kind shown }
{
    Fault {
        kind,
        library: Text::from_vec(Vec::new(alloc)),
        place: None,
        shown,
        numbers: Items::new(alloc),
    }
}

/// The refusal that shows these classes.
pub(crate) fn refused(alloc: Global, program: &Program, classes: &[ClassId], kind: Kind) -> Refusal
    ensures { IsRefused (class_fault kind (map (name_at program.now) classes.now)) result }
{
    match shown_names(alloc, program, classes) {
        Ok(shown) => Refusal::Fault(fault_of(alloc, kind, shown)),
        Err(_) => Refusal::Memory,
    }
}

/// The refusal of a class with two slots of one getter.
pub(crate) fn refused_slot(
    alloc: Global,
    program: &Program,
    class: ClassId,
    getter: GenericId,
) -> Refusal
    ensures { IsRefused (class_fault SlotClash
        (name_at program.now class ∷ generic_name program.now getter ∷ [])) result }
{
    match shown_slot(alloc, program, class, getter) {
        Ok(shown) => Refusal::Fault(fault_of(alloc, Kind::SlotClash, shown)),
        Err(_) => Refusal::Memory,
    }
}
