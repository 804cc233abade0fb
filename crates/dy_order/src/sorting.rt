//! The sorted applicable methods.

ghost use Rattle.std.specs.Prelude.{◌≡◌, ◌⊎◌, ◌↔◌, ◌<◌, ◌++◌, List, [], ◌∷◌, All, length};
ghost use Rattle.std.specs.Prelude.{slice_index_or, IfOk, OnOk, MatchOption, IsTrue};
ghost use Rattle.dy_base.specs.declared.ids.MethodId.{MethodId};
ghost use Rattle.dy_classes.specs.Lists.{Once};
ghost use Rattle.dy_order.specs.Methods.{methods_of};
ghost use Rattle.dy_order.specs.Precedence.{IsApplicable, Precedes};
ghost use Rattle.dy_order.specs.Places.{IsBest};
ghost use Rattle.dy_order.specs.Sorting.{Filtered, IsFirst, IsSorted};

use crate::answer::Sorted;
use crate::precedence::{is_applicable, precedes};
use crate::rows::{counted, method_id, methods_in};
use dy_base::{GenericId, Items, MethodId};
use dy_term::{Program, Shape1};
use std::alloc::{AllocError, Global};

/// Adds a method to those that are found, where it is one of the generic function and applicable.
fn add_applicable(
    program: &Program,
    generic: GenericId,
    args: &[Shape1],
    method: MethodId,
    found: &mut Vec<MethodId>,
) -> Result<(), AllocError>
    ensures { (before : List MethodId)
        → Filtered (IsApplicable program.now generic args.now) before found.old.items
        → OnOk result (Filtered (IsApplicable program.now generic args.now)
        (before ++ method ∷ []) found.new.items) }
{
    if !is_applicable(program, generic, args, method) {
        return Ok(());
    }
    found.push(method)?;
    Ok(())
}

/// The methods of a generic function that are applicable, in the order of the program.
fn applicable(
    alloc: Global,
    program: &Program,
    generic: GenericId,
    args: &[Shape1],
) -> Result<Vec<MethodId>, AllocError>
    ensures { IfOk result
        (λ found. Filtered (IsApplicable program.now generic args.now)
        (methods_of program.now) found.items) }
{
    let mut found = Vec::new(alloc);
    for library in 0..counted(program.libraries.len()) {
        for row in 0..counted(methods_in(program, library).len()) {
            add_applicable(program, generic, args, method_id(library, row), &mut found)?;
        }
    }
    Ok(found)
}

/// The first of two places where its method precedes the other one, else the second.
fn better_place(
    program: &Program,
    args: &[Shape1],
    methods: &[MethodId],
    best: usize,
    place: usize,
) -> usize
    requires best { best < length methods.now }
    requires place { place < length methods.now }
    ensures { (d : MethodId) → let first = slice_index_or methods.now best d in
        let second = slice_index_or methods.now place d in
        ((result ≡ best) × Precedes program.now args.now first second)
        ⊎ ((result ≡ place) × (Precedes program.now args.now first second → ⊥)) }
{
    if precedes(program, methods[best], methods[place], args) {
        best
    } else {
        place
    }
}

/// The place of the only method that can precede all others: it precedes all that follow it, and
/// none before it precedes all others.
fn best_place(program: &Program, args: &[Shape1], methods: &[MethodId]) -> usize
    requires some { 0 < length methods.now }
    requires once { Once methods.now }
    ensures { IsBest (Precedes program.now args.now) methods.now (length methods.now) result }
{
    let mut best = 0;
    for place in 1..methods.len() {
        best = better_place(program, args, methods, best, place);
    }
    best
}

/// Whether a method precedes all of these.
fn precedes_all(program: &Program, args: &[Shape1], method: MethodId, others: &[MethodId]) -> bool
    ensures { IsTrue result ↔ All (Precedes program.now args.now method) others.now }
{
    for other in others {
        if !precedes(program, method, *other, args) {
            return false;
        }
    }
    true
}

/// The place of the method that precedes all others, where there is one.
fn first_place(program: &Program, args: &[Shape1], methods: &[MethodId]) -> Option<usize>
    requires { Once methods.now }
    ensures { MatchOption result
        ((m : MethodId) → IsFirst (Precedes program.now args.now) methods.now m → ⊥)
        (λ place. (place < length methods.now)
        × ((d : MethodId) → IsFirst (Precedes program.now args.now)
        methods.now (slice_index_or methods.now place d))) }
{
    if methods.is_empty() {
        return None;
    }
    let best = best_place(program, args, methods);
    if precedes_all(program, args, methods[best], &methods[..best]) {
        Some(best)
    } else {
        None
    }
}

/// The methods of a generic function that are applicable to some arguments, sorted by precedence
/// (DRM 6, "Method Dispatch").
///
/// A method is applicable where each required argument is an instance of its specializer. Of the
/// applicable methods of the program, the one that precedes all others is taken, again and again.
/// Where there is none, what remains is ambiguous. There is one argument for each required
/// parameter of the generic function. The one error is want of memory.
///
/// It goes once over the methods of the program, and makes at most `k * k` comparisons of two
/// applicable ones, where `k` are applicable.
pub fn sorted(
    alloc: Global,
    program: &Program,
    generic: GenericId,
    args: &[Shape1],
) -> Result<Sorted, AllocError>
    ensures { IfOk result
        (λ answer. IsSorted program.now generic args.now answer.first answer.rest) }
{
    let mut rest = applicable(alloc, program, generic, args)?;
    let mut first = Vec::new(alloc);
    while let Some(place) = first_place(program, args, rest.as_slice()) {
        first.push(rest[place])?;
        rest.remove(place);
    }
    Ok(Sorted {
        first: Items::from_vec(first),
        rest: Items::from_vec(rest),
    })
}
