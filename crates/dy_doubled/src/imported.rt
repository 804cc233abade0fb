//! The modules that a library imports, by their names.

ghost use Rattle.std.specs.Prelude.{◌≡◌, [], option_map, IfOk, OnOk};
ghost use Rattle.dy_module_numbers.specs.Options.{with_names, with_name};
ghost use Rattle.dy_doubled.specs.Doubled as specs;

use dy_base::{BindingId, Exports, Items, Name};
use dy_module_forms::{Clause, Placed, UseOption};
use dy_module_numbers::use_clause;
use dy_modules::{NameSet, UseClause, brought};
use std::alloc::{AllocError, Global};

/// The place of the library of a name among others.
pub fn place_of(others: &[Exports], name: &Name) -> Option<usize>
    ensures { result ≡ specs.place_of others.now name.now }
{
    others
        .iter()
        .position(|library| library.library.bytes() == name.bytes())
}

fn add_brought(
    alloc: Global,
    u: &UseClause,
    name: &Name,
    set: &mut NameSet,
) -> Result<(), AllocError>
    ensures { OnOk result (set.new ≡ specs.with_brought u.now set.old name.now) }
{
    match brought(alloc, u, name.bytes())? {
        Some(new) => set.add(alloc, &new),
        None => Ok(()),
    }
}

#[tactic(auto, using(crate::proofs::Names::with_one))]
fn add_modules(
    alloc: Global,
    u: &UseClause,
    modules: &[(Name, Items<(Name, BindingId)>)],
    set: &mut NameSet,
) -> Result<(), AllocError>
    ensures { OnOk result (set.new ≡ with_names set.old (specs.brought_names u.now modules.now)) }
{
    for (name, _names) in modules {
        add_brought(alloc, u, name, set)?;
    }
    Ok(())
}

fn add_library(
    alloc: Global,
    used: &[Exports],
    place: Option<usize>,
    options: &[UseOption],
    set: &mut NameSet,
) -> Result<(), AllocError>
    ensures { OnOk result (set.new ≡ with_names set.old
        (specs.imported_of options.now (specs.library_at used.now place))) }
{
    let Some(place) = place else {
        return Ok(());
    };
    match used.get(place) {
        Some(library) => {
            let u = use_clause(alloc, 0, options)?;
            add_modules(alloc, &u, library.modules.as_slice(), set)
        }
        None => Ok(()),
    }
}

fn add_clause(
    alloc: Global,
    used: &[Exports],
    clause: &Clause,
    set: &mut NameSet,
) -> Result<(), AllocError>
    ensures { OnOk result (set.new
        ≡ with_names set.old (specs.imported_by used.now clause.now)) }
{
    match clause {
        Clause::Use(name, options) => {
            let place = place_of(used, name);
            add_library(alloc, used, place, options.as_slice(), set)
        }
        Clause::Export(_) => Ok(()),
        Clause::Create(_) => Ok(()),
    }
}

/// The names of the modules that these clauses of a library import.
pub fn imported(alloc: Global, used: &[Exports], clauses: &[Placed]) -> Result<NameSet, AllocError>
    ensures { IfOk result (λ set. set ≡ with_names [] (specs.imported used.now clauses.now)) }
{
    let mut set = NameSet::new(alloc);
    for placed in clauses {
        add_clause(alloc, used, &placed.clause, &mut set)?;
    }
    Ok(set)
}
