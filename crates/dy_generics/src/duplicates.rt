//! Methods of one generic function with the same specializers.

ghost use Rattle.std.specs.Prelude.{◌≡◌, ◌↔◌, All, IsTrue, MatchOption, zip};
ghost use Rattle.dy_base.specs.declared.ids.MethodId.{MethodId};
ghost use Rattle.dy_classes.specs.Lists.{In};
ghost use Rattle.dy_types.specs.Types.{IsSubtype};
ghost use Rattle.dy_order.specs.Methods.{counted, methods_upto};
ghost use Rattle.dy_generics.specs.Duplicates.{AreDuplicates, AreEquivalent, FirstOf, earlier};

use dy_base::{MethodId, Ref};
use dy_order::{method_of, methods_in};
use dy_term::{DyType, Program};
use dy_types::subtype;

fn all_equivalent(program: &Program, types: &[DyType], others: &[DyType]) -> bool
    ensures { IsTrue result
        ↔ All
        (λ pair. IsSubtype program.now pair.0 pair.1 × IsSubtype program.now pair.1 pair.0)
        (zip types.now others.now) }
{
    types.iter().zip(others).all(|(own, other)| subtype(program, own, other)
        && subtype(program, other, own))
}

fn are_equivalent(program: &Program, types: &[DyType], others: &[DyType]) -> bool
    ensures { IsTrue result ↔ AreEquivalent program.now types.now others.now }
{
    types.len() == others.len() && all_equivalent(program, types, others)
}

fn are_duplicates(program: &Program, method: MethodId, other: MethodId) -> bool
    ensures { IsTrue result ↔ AreDuplicates program.now method other }
{
    match method_of(program, method) {
        None => false,
        Some(row) => match method_of(program, other) {
            None => false,
            Some(second) => {
                row.generic == second.generic
                    && are_equivalent(
                        program,
                        row.params.required.as_slice(),
                        second.params.required.as_slice(),
                    )
            }
        },
    }
}

/// How many of so many places an id counts.
fn counted(length: usize) -> u32
    ensures { result ≡ counted length }
{
    match u32::try_from(length) {
        Ok(count) => count,
        Err(_) => u32::MAX,
    }
}

/// The first duplicate of a method among the first methods of a library, up to a number of them.
fn first_in(program: &Program, method: MethodId, library: u32, count: u32) -> Option<MethodId>
    ensures { MatchOption result
        ((other : MethodId) → In other (methods_upto library count)
        → AreDuplicates program.now method other → ⊥)
        (λ other. FirstOf (AreDuplicates program.now method) (methods_upto library count) other) }
{
    for row in 0..count {
        let other = MethodId(Ref { library, row });
        if are_duplicates(program, method, other) {
            return Some(other);
        }
    }
    None
}

/// The first method before a method in the program, if any, that is a duplicate of it: one of the
/// same generic function whose specializers are subtypes of its own, and its own of these.
pub fn duplicate(program: &Program, method: MethodId) -> Option<MethodId>
    ensures { MatchOption result
        ((other : MethodId) → In other (earlier program.now method)
        → AreDuplicates program.now method other → ⊥)
        (λ other. FirstOf (AreDuplicates program.now method) (earlier program.now method) other) }
{
    for library in 0..method.0.library {
        let count = counted(methods_in(program, library).len());
        if let Some(other) = first_in(program, method, library, count) {
            return Some(other);
        }
    }
    first_in(program, method, method.0.library, method.0.row)
}
