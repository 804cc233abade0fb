//! Which module a name means.

ghost use Rattle.std.specs.Prelude.{◌≡◌, [], slice_get, IfOk, OnOk, map};
ghost use Rattle.std.specs.Option.{option_copied, option_map};
ghost use Rattle.std.specs.FinMap as finite;
ghost use Rattle.dy_base.specs.Tables.{table_of};
ghost use Rattle.dy_module_numbers.specs.Numbers as spec;

use dy_base::{Items, NameList, Text};
use dy_modules::{ModuleForm, NameSet, Owner, UseClause, brought};
use std::alloc::{AllocError, Global};

/// The number of the module that a name means.
pub fn number_of(own: &NameSet, imported: &NameList<usize>, name: &[u8]) -> Option<usize>
    ensures { result ≡ spec.number_of own.now imported.now name.now }
{
    match own.place_of(name) {
        Some(number) => Some(number),
        None => imported.get(name).copied(),
    }
}

fn add_brought(
    alloc: Global,
    u: &UseClause,
    row: Option<(&[u8], &usize)>,
    pairs: &mut Items<(Text, usize)>,
) -> Result<(), AllocError>
    ensures { OnOk result (pairs.new
        ≡ spec.with_row pairs.old u.now
        (option_map (λ p. (p.0.now, p.1.now)) row.entry)) }
{
    let Some((name, number)) = row else {
        return Ok(());
    };
    match brought(alloc, u, name)? {
        Some(new) => {
            pairs.push((Text::from_vec(new), *number))?;
            Ok(())
        }
        None => Ok(()),
    }
}

/// What a clause makes of the modules of a library.
pub fn brought_modules(
    alloc: Global,
    u: &UseClause,
    modules: &NameList<usize>,
) -> Result<Items<(Text, usize)>, AllocError>
    ensures { IfOk result (λ pairs. pairs ≡ spec.brought_modules u.now modules.now) }
{
    let mut pairs = Items::new(alloc);
    for place in 0..modules.len() {
        add_brought(alloc, u, modules.at(place), &mut pairs)?;
    }
    Ok(pairs)
}

/// Puts modules under names that have none yet.
pub fn add_modules(
    alloc: Global,
    pairs: &[(Text, usize)],
    modules: &mut NameList<usize>,
) -> Result<(), AllocError>
    ensures { OnOk result (modules.new ≡ spec.with_modules modules.old pairs.now) }
{
    for (name, number) in pairs {
        if modules.get(name.bytes()).is_none() {
            modules.set(alloc, name.bytes(), *number)?;
        }
    }
    Ok(())
}

fn is_same_row(left: Option<(&[u8], &Owner)>, right: Option<(&[u8], &Owner)>) -> bool
    ensures { result ≡ spec.is_same_row
        (option_map (λ p. (p.0.now, p.1.now)) left.entry)
        (option_map (λ p. (p.0.now, p.1.now)) right.entry) }
{
    match (left, right) {
        (Some((a, j)), Some((b, k))) => a == b && j.is_same(k),
        (Some(_), None) => false,
        (None, Some(_)) => false,
        (None, None) => true,
    }
}

fn same_given(left: &NameList<Owner>, right: &NameList<Owner>) -> bool
    ensures { result ≡ spec.same_given left.now right.now }
{
    if left.len() != right.len() {
        return false;
    }
    for place in 0..left.len() {
        if !is_same_row(left.at(place), right.at(place)) {
            return false;
        }
    }
    true
}

fn given_at(forms: &[ModuleForm], number: usize) -> Option<&NameList<Owner>>
    ensures { spec.rows_or_none (option_copied result)
        ≡ spec.given_of (slice_get forms.now number) }
{
    match forms.get(number) {
        Some(form) => Some(&form.given),
        None => None,
    }
}

/// Whether a module exports nothing.
#[tactic(auto, using(crate::proofs::Givens::given_none, crate::proofs::Givens::none_given))]
fn is_nothing(given: &NameList<Owner>) -> bool
    ensures right { result ≡ spec.same_given given.now [] }
    ensures left { result ≡ spec.same_given [] given.now }
{
    given.len() == 0
}

fn same_lists(left: Option<&NameList<Owner>>, right: Option<&NameList<Owner>>) -> bool
    ensures { result ≡ spec.same_given (spec.rows_or_none (option_copied left.entry))
        (spec.rows_or_none (option_copied right.entry)) }
{
    match (left, right) {
        (Some(a), Some(b)) => same_given(a, b),
        (Some(a), None) => is_nothing(a),
        (None, Some(b)) => is_nothing(b),
        (None, None) => true,
    }
}

fn is_same_module(forms: &[ModuleForm], left: usize, right: usize) -> bool
    ensures { result ≡ spec.is_same_module forms.now left right }
{
    same_lists(given_at(forms, left), given_at(forms, right))
}

/// Whether a name means another module already.
pub fn is_other(forms: &[ModuleForm], before: Option<usize>, number: usize) -> bool
    ensures { result ≡ spec.is_other forms.now before number }
{
    match before {
        Some(before) => !is_same_module(forms, before, number),
        None => false,
    }
}
