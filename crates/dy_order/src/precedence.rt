//! Which methods are applicable, and which precedes which.

ghost use Rattle.std.specs.Prelude.{◌≡◌, ◌↔◌, All, Any, IsTrue, zip};
ghost use Rattle.dy_types.specs.Types.{IsInstance};
ghost use Rattle.dy_types.specs.Classes.{order_of};
ghost use Rattle.dy_order.specs.Precedence.{AreInstances, AreUnrelated, IsApplicable, IsBefore};
ghost use Rattle.dy_order.specs.Precedence.{IsEarlier, IsAsSpecific, IsMoreSpecific, Precedes};
ghost use Rattle.dy_order.specs.Precedence.{positions, one_class};

use crate::rows::{method_of, place_in_order, specializers_of};
use dy_base::{ClassId, GenericId, MethodId};
use dy_term::{DyType, Member, Program, Shape1};
use dy_types::{instance, subtype};

fn all_instances(program: &Program, args: &[Shape1], types: &[DyType]) -> bool
    ensures { IsTrue result
        ↔ All (λ pair. IsInstance program.now pair.0 pair.1) (zip args.now types.now) }
{
    args.iter()
        .zip(types)
        .all(|(shape, declared)| instance(program, shape, declared))
}

fn are_instances(program: &Program, args: &[Shape1], types: &[DyType]) -> bool
    ensures { IsTrue result ↔ AreInstances program.now args.now types.now }
{
    args.len() == types.len() && all_instances(program, args, types)
}

/// Whether a method is one of the generic function, and applicable to the arguments.
pub(crate) fn is_applicable(
    program: &Program,
    generic: GenericId,
    args: &[Shape1],
    method: MethodId,
) -> bool
    ensures { IsTrue result ↔ IsApplicable program.now generic args.now method }
{
    match method_of(program, method) {
        None => false,
        Some(row) => {
            row.generic == generic && are_instances(program, args, row.params.required.as_slice())
        }
    }
}

/// The class that a type is, where it is one class.
fn one_class(declared: &DyType) -> Option<ClassId>
    ensures { result ≡ one_class declared.now.members }
{
    match declared.members.as_slice() {
        [Member::Class(class)] => Some(*class),
        _ => None,
    }
}

/// Whether a class stands before another in the class precedence list of an argument's class, by
/// the first place of each.
fn is_before(program: &Program, own: ClassId, class: ClassId, other: ClassId) -> bool
    ensures { IsTrue result ↔ IsBefore class other (order_of program.now own) }
{
    match place_in_order(program, own, class) {
        None => false,
        Some(place) => match place_in_order(program, own, other) {
            None => false,
            Some(second) => place < second,
        },
    }
}

fn are_unrelated(program: &Program, declared: &DyType, other: &DyType) -> bool
    ensures { IsTrue result ↔ AreUnrelated program.now declared.now other.now }
{
    !subtype(program, declared, other) && !subtype(program, other, declared)
}

/// Whether two types are one class each, unrelated, and the argument's class has the first before
/// the second in its class precedence list.
fn is_earlier(program: &Program, shape: &Shape1, declared: &DyType, other: &DyType) -> bool
    ensures { IsTrue result ↔ IsEarlier program.now shape.now declared.now other.now }
{
    match one_class(declared) {
        None => false,
        Some(class) => match one_class(other) {
            None => false,
            Some(second) => {
                is_before(program, shape.class, class, second)
                    && are_unrelated(program, declared, other)
            }
        },
    }
}

fn is_as_specific(program: &Program, shape: &Shape1, declared: &DyType, other: &DyType) -> bool
    ensures { IsTrue result ↔ IsAsSpecific program.now shape.now declared.now other.now }
{
    subtype(program, declared, other) || is_earlier(program, shape, declared, other)
}

fn is_more_specific(program: &Program, shape: &Shape1, declared: &DyType, other: &DyType) -> bool
    ensures { IsTrue result ↔ IsMoreSpecific program.now shape.now declared.now other.now }
{
    is_as_specific(program, shape, declared, other)
        && !is_as_specific(program, shape, other, declared)
}

fn all_as_specific(program: &Program, args: &[Shape1], types: &[DyType], others: &[DyType]) -> bool
    ensures { IsTrue result
        ↔ All (λ place. IsAsSpecific program.now place.0 place.1.0 place.1.1)
        (positions args.now types.now others.now) }
{
    args.iter().zip(types.iter().zip(others)).all(|(shape, (declared, other))| is_as_specific(
        program, shape, declared, other,
    ))
}

fn some_more_specific(
    program: &Program,
    args: &[Shape1],
    types: &[DyType],
    others: &[DyType],
) -> bool
    ensures { IsTrue result
        ↔ Any (λ place. IsMoreSpecific program.now place.0 place.1.0 place.1.1)
        (positions args.now types.now others.now) }
{
    args.iter().zip(types.iter().zip(others)).any(|(shape, (declared, other))| is_more_specific(
        program, shape, declared, other,
    ))
}

/// Whether a method precedes another one of its generic function, for arguments to which both are
/// applicable (DRM 6, "Method Specificity").
///
/// It does where at each position its specializer is at least as specific, and at some position it
/// is more specific. Specializers are compared by `subtype`. Where both are one class each and
/// neither is a subtype of the other, the one is more specific that stands earlier in the class
/// precedence list of the argument's class. There is one argument for each required parameter of
/// the generic function.
pub fn precedes(program: &Program, a: MethodId, b: MethodId, args: &[Shape1]) -> bool
    ensures { IsTrue result ↔ Precedes program.now args.now a b }
{
    let types = specializers_of(program, a);
    let others = specializers_of(program, b);
    all_as_specific(program, args, types, others)
        && some_more_specific(program, args, types, others)
}
