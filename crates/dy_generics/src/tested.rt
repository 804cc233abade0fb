//! The tests of congruence.

ghost use Rattle.std.specs.Prelude.{◌≡◌, ◌↔◌, ◌⊎◌, ◌≤◌, IsTrue, Contains, [], ◌∷◌, length, true};
ghost use Rattle.dy_term.specs.declared.rows.Program.{Program};
ghost use Rattle.dy_generics.specs.Congruence.{Claim, HasEnough, Holds, Tested, kinds_of};
ghost use Rattle.dy_generics.specs.Congruence.{keywords_of, misfit_of, test, typed, typed_by};
ghost use Rattle.dy_generics.specs.Congruence.{keyed, further, option_list};
ghost use Rattle.dy_generics.specs.Congruence.{params_tests, results_tests};

use crate::misfit::{Kinds, Misfit, Reason};
use dy_base::Name;
use dy_term::{DyType, Params, Program, Results};
use dy_types::subtype;

/// The place of a test, as far as it is counted.
fn misfit_at(place: usize, reason: Reason) -> Misfit
    ensures { (claim : Claim) → result ≡ misfit_of (test place reason claim) }
{
    let position = match u32::try_from(place) {
        Ok(position) => position,
        Err(_) => u32::MAX,
    };
    Misfit { position, reason }
}

/// A test that has no place.
pub(crate) fn test_all(holds: bool, reason: Reason) -> Result<(), Misfit>
    ensures { (program : Program) (claim : Claim) → (IsTrue holds ↔ Holds program claim)
        → Tested program (test 0 reason claim ∷ []) result }
{
    if holds {
        Ok(())
    } else {
        Err(misfit_at(0, reason))
    }
}

/// Whether each type is a subtype of the one at its place, as far as both lists go.
fn test_types(
    program: &Program,
    types: &[DyType],
    wanted: &[DyType],
    reason: Reason,
) -> Result<(), Misfit>
    ensures { Tested program.now (typed reason 0 types.now wanted.now) result }
{
    for place in 0..types.len().min(wanted.len()) {
        if !subtype(program, &types[place], &wanted[place]) {
            return Err(misfit_at(place, reason));
        }
    }
    Ok(())
}

/// Which arguments a parameter list takes beyond the required ones.
fn kinds_of(params: &Params) -> Kinds
    ensures { result ≡ kinds_of params.now }
{
    if params.keys.is_some() {
        Kinds::Keywords
    } else if params.rest {
        Kinds::Rest
    } else {
        Kinds::Neither
    }
}

fn keywords_of(params: &Params) -> &[Name]
    ensures { result.now ≡ keywords_of params.now }
{
    match &params.keys {
        Some(keys) => keys.as_slice(),
        None => &[],
    }
}

fn takes_keyword(own: &Params, keyword: &Name) -> bool
    ensures { IsTrue result
        ↔ (Contains (keywords_of own.now) keyword.now ⊎ (own.now.all_keys ≡ true)) }
{
    own.all_keys
        || keywords_of(own)
            .iter()
            .any(|name| name.bytes() == keyword.bytes())
}

/// Whether each keyword is taken.
fn test_keywords(own: &Params, keywords: &[Name]) -> Result<(), Misfit>
    ensures { (program : Program) → Tested program (keyed own.now 0 keywords.now) result }
{
    for (place, keyword) in keywords.iter().enumerate() {
        if !takes_keyword(own, keyword) {
            return Err(misfit_at(place, Reason::Keyword));
        }
    }
    Ok(())
}

/// The tests of the parameters.
pub(crate) fn test_params(program: &Program, own: &Params, wanted: &Params) -> Result<(), Misfit>
    ensures { Tested program.now (params_tests own.now wanted.now) result }
{
    test_all(own.required.len() == wanted.required.len(), Reason::Count)?;
    let types = own.required.as_slice();
    test_types(
        program,
        types,
        wanted.required.as_slice(),
        Reason::Specializer,
    )?;
    test_all(kinds_of(own) == kinds_of(wanted), Reason::Kind)?;
    test_keywords(own, keywords_of(wanted))
}

/// Whether there are enough results.
fn has_enough(own: &Results, wanted: &Results) -> bool
    ensures { IsTrue result ↔ HasEnough own.now wanted.now wanted.now.rest }
{
    if wanted.rest.is_some() {
        wanted.required.len() <= own.required.len()
    } else {
        own.required.len() == wanted.required.len() && own.rest.is_none()
    }
}

/// Whether the type of further results, if any, is a subtype.
fn test_rest(
    program: &Program,
    rest: &Option<DyType>,
    place: usize,
    upper: &DyType,
) -> Result<(), Misfit>
    ensures { Tested program.now (typed_by upper.now place (option_list rest.now)) result }
{
    match rest {
        None => Ok(()),
        Some(own) => {
            if subtype(program, own, upper) {
                Ok(())
            } else {
                Err(misfit_at(place, Reason::ResultType))
            }
        }
    }
}

/// Whether the types from a place on, and that of further results, are subtypes of one type.
fn test_further(program: &Program, own: &Results, from: usize, upper: &DyType) -> Result<(), Misfit>
    requires { from ≤ length own.now.required }
    ensures { Tested program.now (typed_by upper.now from (further from own.now)) result }
{
    let types = own.required.as_slice();
    for place in from..types.len() {
        if !subtype(program, &types[place], upper) {
            return Err(misfit_at(place, Reason::ResultType));
        }
    }
    test_rest(program, &own.rest, types.len(), upper)
}

/// The tests of the results.
pub(crate) fn test_results(program: &Program, own: &Results, wanted: &Results) -> Result<(), Misfit>
    ensures { Tested program.now (results_tests own.now wanted.now) result }
{
    test_all(has_enough(own, wanted), Reason::ResultCount)?;
    let types = own.required.as_slice();
    test_types(
        program,
        types,
        wanted.required.as_slice(),
        Reason::ResultType,
    )?;
    match &wanted.rest {
        Some(upper) => test_further(program, own, wanted.required.len(), upper),
        None => Ok(()),
    }
}
