//! Names that are not exported to a use clause.

ghost use Rattle.std.specs.Prelude.{◌≡◌, IfOk, OnOk, option_map};
ghost use Rattle.std.specs.List.{list_any};
ghost use Rattle.dy_library_form.specs.Told as spec;

use dy_base::{Name, Text};
use dy_module_forms::{Member, UseOption};
use dy_modules::{NameSet, UseClause, brought};
use std::alloc::{AllocError, Global};

fn absent_name<'a>(names: &'a [Name], set: &NameSet) -> Option<&'a Name>
    ensures { option_map (λ name. name.now) result ≡ spec.absent set.now names.now }
{
    for name in names {
        if !set.has(name.bytes()) {
            return Some(name);
        }
    }
    None
}

fn absent_member<'a>(members: &'a [Member], set: &NameSet) -> Option<&'a Name>
    ensures { option_map (λ name. name.now) result ≡ spec.absent_member set.now members.now }
{
    for member in members {
        if !set.has(member.name.bytes()) {
            return Some(&member.name);
        }
    }
    None
}

fn missing_of_option<'a>(
    option: &'a UseOption,
    exported: &NameSet,
    brought: &NameSet,
) -> Option<&'a Name>
    ensures { option_map (λ name. name.now) result
        ≡ spec.missing_of exported.now brought.now option.now }
{
    match option {
        UseOption::Import(Some(members)) => absent_member(members.as_slice(), exported),
        UseOption::Import(None) => None,
        UseOption::Exclude(names) => absent_name(names.as_slice(), exported),
        UseOption::Rename(members) => absent_member(members.as_slice(), exported),
        UseOption::Prefix(_) => None,
        UseOption::Export(Some(names)) => absent_name(names.as_slice(), brought),
        UseOption::Export(None) => None,
    }
}

/// The first name, in the order of the text, that options name and that is not exported to their
/// clause, or that they export again and that the clause does not bring.
pub fn missing<'a>(
    options: &'a [UseOption],
    exported: &NameSet,
    brought: &NameSet,
) -> Option<&'a Name>
    ensures { option_map (λ name. name.now) result
        ≡ spec.missing exported.now brought.now options.now }
{
    for option in options {
        if let Some(name) = missing_of_option(option, exported, brought) {
            return Some(name);
        }
    }
    None
}

fn names_something(option: &UseOption) -> bool
    ensures { result ≡ spec.names_something option.now }
{
    match option {
        UseOption::Import(set) => set.is_some(),
        UseOption::Exclude(_) => true,
        UseOption::Rename(_) => true,
        UseOption::Prefix(_) => false,
        UseOption::Export(set) => set.is_some(),
    }
}

/// Whether options name something that can be missing.
pub fn name_something(options: &[UseOption]) -> bool
    ensures { result ≡ list_any spec.names_something options.now }
{
    for option in options {
        if names_something(option) {
            return true;
        }
    }
    false
}

fn add_brought(
    alloc: Global,
    u: &UseClause,
    name: Option<&[u8]>,
    set: &mut NameSet,
) -> Result<(), AllocError>
    ensures { OnOk result (set.new
        ≡ spec.with_new_name u.now
        (option_map (λ n. n.now) name.entry) set.old) }
{
    let Some(name) = name else {
        return Ok(());
    };
    match brought(alloc, u, name)? {
        Some(new) => set.add(alloc, &new),
        None => Ok(()),
    }
}

/// The names that a clause brings of these.
pub fn brought_names(
    alloc: Global,
    u: &UseClause,
    exported: &NameSet,
) -> Result<NameSet, AllocError>
    ensures { IfOk result (λ set. set ≡ spec.brought_names u.now exported.now) }
{
    let mut set = NameSet::new(alloc);
    for place in 0..exported.len() {
        add_brought(alloc, u, exported.at(place), &mut set)?;
    }
    Ok(set)
}
