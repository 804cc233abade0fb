//! The libraries that the clauses of a library name.

ghost use Rattle.std.specs.Prelude.{◌≡◌, ◌<◌, ◌^◌, ℕ, Some, length, IfOk, OnOk};
ghost use Rattle.dy_views.specs.Views as spec;

use dy_base::{Exports, Items, Name};
use dy_module_forms::{Clause, Placed};
use std::alloc::{AllocError, Global};

/// The number of the library of a name.
#[tactic(auto, using(crate::proofs::Naming::number_there))]
fn number_of(compiled: &[Exports], name: &Name) -> Option<usize>
    ensures is { result ≡ spec.number_of compiled.now name.now }
    ensures there { (number : ℕ) → result ≡ Some number → number < length compiled.now }
{
    compiled
        .iter()
        .position(|library| library.library.bytes() == name.bytes())
}

/// Puts a number behind others, unless it is there already.
fn add_number(numbers: &mut Items<u32>, number: u32) -> Result<(), AllocError>
    ensures { OnOk result (numbers.new ≡ spec.with_number numbers.old number) }
{
    if numbers.as_slice().contains(&number) {
        return Ok(());
    }
    numbers.push(number)?;
    Ok(())
}

/// Adds the number of the library that a clause names.
fn add_used(
    compiled: &[Exports],
    clause: &Clause,
    numbers: &mut Items<u32>,
) -> Result<(), AllocError>
    requires { length compiled.now < 2 ^ 32 }
    ensures { OnOk result (numbers.new
        ≡ spec.with_numbers compiled.now numbers.old (spec.used_by_clause clause.now)) }
{
    match clause {
        Clause::Use(name, _) => match number_of(compiled, name) {
            Some(number) => add_number(numbers, number as u32),
            None => Ok(()),
        },
        Clause::Export(_) => Ok(()),
        Clause::Create(_) => Ok(()),
    }
}

/// The numbers of the libraries that clauses name, in their order, each once.
pub(crate) fn used_numbers(
    alloc: Global,
    compiled: &[Exports],
    clauses: &[Placed],
) -> Result<Items<u32>, AllocError>
    requires { length compiled.now < 2 ^ 32 }
    ensures { IfOk result (λ numbers. numbers ≡ spec.used_numbers compiled.now clauses.now) }
{
    let mut numbers = Items::new(alloc);
    for placed in clauses {
        add_used(compiled, &placed.clause, &mut numbers)?;
    }
    Ok(numbers)
}
