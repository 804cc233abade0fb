//! Rows of the program.

ghost use Rattle.std.specs.Prelude.{◌≡◌};
ghost use Rattle.std.specs.Option.{option_copied};
ghost use Rattle.dy_code.specs.Programs as programs;

use dy_base::{BindingId, GenericId, MethodId};
use dy_code::Linked;
use dy_term::{GenericRow, MethodRow, VariableRow};

pub fn generic_row(linked: &Linked, generic: GenericId) -> Option<&GenericRow>
    ensures { option_copied result ≡ programs.generic_row linked.now generic }
{
    match linked
        .program
        .libraries
        .as_slice()
        .get(generic.0.library as usize)
    {
        Some(library) => library.generics.as_slice().get(generic.0.row as usize),
        None => None,
    }
}

pub fn method_row(linked: &Linked, method: MethodId) -> Option<&MethodRow>
    ensures { option_copied result ≡ programs.method_row linked.now method }
{
    match linked
        .program
        .libraries
        .as_slice()
        .get(method.0.library as usize)
    {
        Some(library) => library.methods.as_slice().get(method.0.row as usize),
        None => None,
    }
}

pub fn variable_row(linked: &Linked, named: BindingId) -> Option<&VariableRow>
    ensures { option_copied result ≡ programs.variable_row linked.now named }
{
    match linked
        .program
        .libraries
        .as_slice()
        .get(named.at.library as usize)
    {
        Some(library) => library.variables.as_slice().get(named.at.row as usize),
        None => None,
    }
}
