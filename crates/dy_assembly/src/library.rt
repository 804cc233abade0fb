//! A library of its rows, and the program of a library.

ghost use Rattle.std.specs.Prelude.{◌≡◌, map, IfOk};
ghost use Rattle.dy_term.specs.Rows.{seen_draft};
ghost use Rattle.dy_names.specs.Tables.{owner_in};
ghost use Rattle.dy_library_rows.specs.Libraries.{seen_form};
ghost use Rattle.dy_assembly.specs.Libraries.{without_rows, library_of, own_heading, IsAssembled};
ghost use Rattle.dy_assembly.specs.Libraries.{program_with};

use crate::generics::generics_of;
use crate::rows::add_rows;
use dy_base::{Items, Name, Place, Refusal, fold};
use dy_library_rows::{Names, names_of, resolve_library};
use dy_names::Environment;
use dy_prims::{dylan, io};
use dy_term::{Draft, LibraryRow, Program, Row};
use std::alloc::{AllocError, Global};
use std::mem;

/// What a library is beside its rows.
#[derive(Debug, Drop)]
pub struct Heading {
    /// Its place in the load order.
    pub number: u32,
    pub name: Name,
    /// The libraries that it uses, by their places in the load order.
    pub uses: Items<u32>,
}

fn without_rows(alloc: Global, heading: Heading) -> LibraryRow
    ensures { result ≡ without_rows heading }
{
    LibraryRow {
        name: heading.name,
        uses: heading.uses,
        classes: Items::new(alloc),
        generics: Items::new(alloc),
        methods: Items::new(alloc),
        domains: Items::new(alloc),
        variables: Items::new(alloc),
        tops: Items::new(alloc),
    }
}

/// The library of these rows, which the forms of the library gave where names mean what they do
/// here. Each kind of row stands in its order. Its generic functions are those that the forms
/// define; where the first method or slot of a name stands and no form defines the generic function
/// of that name, the one that it makes (DRM 6). The one error is want of memory.
pub fn assemble<E: Environment>(
    alloc: Global,
    heading: Heading,
    environment: &E,
    forms: &[(Place, Draft)],
    rows: Items<Row>,
) -> Result<LibraryRow, AllocError>
    ensures { IfOk result (λ library. library
        ≡ library_of heading (E.outside environment.now).owner
        (map (λ f. seen_draft f.1) forms.now) rows) }
{
    let number = heading.number;
    let mut library = without_rows(alloc, heading);
    add_rows(rows, &mut library)?;
    let defined = mem::replace(&mut library.generics, Items::new(alloc));
    library.generics = generics_of(alloc, environment, number, forms, defined)?;
    Ok(library)
}

/// What a program's own library is beside its rows: it is the third, and uses `dylan` and `io`.
fn own_heading(alloc: Global, name: &[u8]) -> Result<Heading, AllocError>
    ensures { IfOk result (λ heading. heading ≡ own_heading name.now) }
{
    let mut uses = Items::new(alloc);
    uses.push(0)?;
    uses.push(1)?;
    Ok(Heading {
        number: 2,
        name: fold(alloc, name)?,
        uses,
    })
}

/// A program's own library of this name, of rows that its forms gave where names mean what they do
/// here, as `assemble` has it.
pub fn assemble_own(
    alloc: Global,
    name: &[u8],
    names: &Names,
    forms: &[(Place, Draft)],
    rows: Items<Row>,
) -> Result<LibraryRow, AllocError>
    ensures { IfOk result (λ library. library
        ≡ library_of (own_heading name.now) (owner_in names.now.owners)
        (map (λ f. seen_draft f.1) forms.now) rows) }
{
    let heading = own_heading(alloc, name)?;
    assemble(alloc, heading, names, forms, rows)
}

/// A program's own library of this name, of these forms; or the fault of the first form whose names
/// are wrong, or else of the first that has too many parameters somewhere, as `read_library` of
/// `dy_library_rows` has it.
pub fn own_library(
    alloc: Global,
    name: &[u8],
    forms: &[(Place, Draft)],
) -> Result<LibraryRow, Refusal>
    ensures { IsAssembled name.now (map seen_form forms.now) result }
{
    let names = names_of(alloc, forms)?;
    let rows = resolve_library(alloc, &names, forms)?;
    Ok(assemble_own(alloc, name, &names, forms, rows)?)
}

/// The program of a library: behind `dylan` and `io`, which are built in. The one error is want of
/// memory.
pub fn program_with(alloc: Global, library: LibraryRow) -> Result<Program, AllocError>
    ensures { IfOk result (λ program. program ≡ program_with library) }
{
    let mut libraries = Items::new(alloc);
    libraries.push(dylan(alloc)?)?;
    libraries.push(io(alloc)?)?;
    libraries.push(library)?;
    Ok(Program { libraries })
}
