//! The code of libraries.

ghost use Rattle.std.specs.Prelude.{◌≡◌, true, map, IfOk};
ghost use Rattle.std.specs.List.{list_all};
ghost use Rattle.dy_lowering_whole.specs.Lowered.{is_library_lowered, IsLowered};
ghost use Rattle.dy_linked_rows.specs.Programs.{unit_of, units};
ghost use Rattle.dy_bare_machines.specs.Machines.{linked_without_terms};
ghost use Rattle.dy_running.specs.Runs.{viewed, program_of, AreApart};

use dy_base::Items;
use dy_code::{Library, Linked, Unit};
use dy_join::join;
use dy_lower::{Refusal, lower};
use dy_term::Program;
use std::alloc::{AllocError, Global};

/// The unit of a library of which every part is lowered yet.
fn lower_library(alloc: Global, library: Library) -> Result<Unit, AllocError>
    requires { is_library_lowered library.row ≡ true }
    ensures { IfOk result (λ unit. unit ≡ unit_of (viewed library)) }
{
    let view = Program {
        libraries: Items::new(alloc),
    };
    match lower(alloc, &view, library) {
        Ok(unit) => Ok(unit),
        Err(Refusal::Memory) => Err(AllocError),
        Err(Refusal::NotYet) => unreachable!(),
    }
}

/// The units of libraries.
fn lower_libraries(alloc: Global, libraries: Vec<Library>) -> Result<Vec<Unit>, AllocError>
    requires { list_all (λ library. is_library_lowered library.row) libraries.items ≡ true }
    ensures { IfOk result (λ all. all.items ≡ units (map viewed libraries.items)) }
{
    let mut all = Vec::new(alloc);
    for library in libraries {
        all.push(lower_library(alloc, library)?)?;
    }
    Ok(all)
}

/// The program of libraries in load order, with their code. Each is lowered in a view of its own,
/// and then stands without its terms at its place in the program. The one error is want of memory.
pub(crate) fn link_libraries(alloc: Global, libraries: Vec<Library>) -> Result<Linked, AllocError>
    requires apart { AreApart libraries.items }
    requires lowered { IsLowered (program_of libraries.items) }
    ensures { IfOk result (λ linked. linked ≡ linked_without_terms (program_of libraries.items)) }
{
    let units = lower_libraries(alloc, libraries)?;
    join(alloc, units)
}
