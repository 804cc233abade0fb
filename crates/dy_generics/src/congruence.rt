//! Which methods and domains are congruent with their generic functions.

ghost use Rattle.dy_generics.specs.Congruence.{Tested, method_tests, tests_of, tests_of_domain};

use crate::misfit::{Misfit, Reason};
use crate::rows::{domain_of, generic_of};
use crate::tested::{test_all, test_params, test_results};
use dy_base::{DomainId, MethodId};
use dy_order::method_of;
use dy_term::{GenericRow, MethodRow, Program};

fn test_method(program: &Program, method: &MethodRow, generic: &GenericRow) -> Result<(), Misfit>
    ensures { Tested program.now (method_tests method.now generic.now) result }
{
    test_params(program, &method.params, &generic.params)?;
    test_results(program, &method.results, &generic.results)
}

/// Whether a method is congruent with its generic function (DRM 6, "Parameter List Congruency"):
/// it passes each of these tests, or the first one that it does not pass is told.
///
/// - `Count`: it has as many required parameters.
/// - `Specializer`: each of their types is a subtype of that of the generic function.
/// - `Kind`: both take keywords, or both take any further arguments and no keywords, or neither.
/// - `Keyword`: it takes each keyword that the generic function names; `#all-keys` suffices.
/// - `ResultCount`: it has as many results, and no `#rest` result. Where the generic function has a
///   `#rest` result, it has at least as many required ones.
/// - `ResultType`: each of their types is a subtype of that of the generic function, and where that
///   has a `#rest` result, each further one is a subtype of its type.
///
/// The method and its generic function have rows.
pub fn congruent(program: &Program, method: MethodId) -> Result<(), Misfit>
    ensures { Tested program.now (tests_of program.now method) result }
{
    match method_of(program, method) {
        None => Ok(()),
        Some(row) => match generic_of(program, row.generic) {
            None => Ok(()),
            Some(generic) => test_method(program, row, generic),
        },
    }
}

/// Whether a sealed domain has a type for each required parameter of its generic function. The
/// domain and its generic function have rows. The one reason is `Count`.
pub fn congruent_domain(program: &Program, domain: DomainId) -> Result<(), Misfit>
    ensures { Tested program.now (tests_of_domain program.now domain) result }
{
    match domain_of(program, domain) {
        None => Ok(()),
        Some(row) => match generic_of(program, row.generic) {
            None => Ok(()),
            Some(generic) => test_all(
                row.types.len() == generic.params.required.len(),
                Reason::Count,
            ),
        },
    }
}
