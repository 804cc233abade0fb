//! What the rows of a program say of generic functions and domains.

ghost use Rattle.std.specs.Prelude.{◌≡◌};
ghost use Rattle.std.specs.Option.{option_copied};
ghost use Rattle.dy_classes.specs.Legal.{generic_at};
ghost use Rattle.dy_generics.specs.Congruence.{domain_at};

use dy_base::{DomainId, GenericId};
use dy_term::{DomainRow, GenericRow, Program};

pub(crate) fn generic_of(program: &Program, generic: GenericId) -> Option<&GenericRow>
    ensures { option_copied result ≡ generic_at program.now generic }
{
    let library = program
        .libraries
        .as_slice()
        .get(generic.0.library as usize)?;
    library.generics.as_slice().get(generic.0.row as usize)
}

pub(crate) fn domain_of(program: &Program, domain: DomainId) -> Option<&DomainRow>
    ensures { option_copied result ≡ domain_at program.now domain }
{
    let library = program.libraries.as_slice().get(domain.0.library as usize)?;
    library.domains.as_slice().get(domain.0.row as usize)
}
