//! The libraries of a program.

ghost use Rattle.std.specs.Prelude.{◌≡◌, ◌<◌, ℕ, [], Some, map, zip, length, All, EachIndex};
ghost use Rattle.std.specs.Prelude.{nat_eq, slice_get, slice_index_or, IfOk};
ghost use Rattle.std.specs.List.{IsDistinct};
ghost use Rattle.dy_code.specs.declared.unit.Library.{Library};
ghost use Rattle.dy_views.specs.Views.{AreCompiled};
ghost use Rattle.dy_libraries.specs.Commands.{AreLibraries};
ghost use Rattle.dy_libraries.specs.Parts.{joined_library, held};
ghost use Rattle.dy_libraries.specs.Programs as spec;

use crate::libraries::Libraries;
use dy_base::{Exports, Items, Name, fold};
use dy_code::Library;
use dy_term::LibraryRow;
use dy_views::Compiled;
use std::alloc::{AllocError, Global};

/// The name of a library, which was compiled.
fn name_at(alloc: Global, compiled: &Compiled, number: u32) -> Result<Name, AllocError>
    requires { number < length compiled.now.exports }
    ensures { IfOk result (λ name. name ≡ spec.name_at compiled.now number) }
{
    let exports = compiled.exports.as_slice();
    fold(alloc, exports[number as usize].library.bytes())
}

/// The others in the view of a library, which was compiled.
fn others_of(
    alloc: Global,
    compiled: &Compiled,
    number: usize,
) -> Result<Items<(Name, [u8; 32])>, AllocError>
    requires compiled { AreCompiled compiled.now }
    requires there { number < length compiled.now.exports }
    ensures { IfOk result (λ others. others ≡ spec.others_of compiled.now number) }
{
    let mut others = Items::new(alloc);
    for other in compiled.orders.as_slice()[number].as_slice() {
        if *other as usize != number {
            others.push((name_at(alloc, compiled, *other)?, [0; 32]))?;
        }
    }
    Ok(others)
}

/// For each library the others in its view.
fn all_others(
    alloc: Global,
    compiled: &Compiled,
) -> Result<Vec<Items<(Name, [u8; 32])>>, AllocError>
    requires { AreCompiled compiled.now }
    ensures count { IfOk result (λ all. length all.items ≡ length compiled.now.exports) }
    ensures others { IfOk result (λ all. EachIndex all.items (λ number.
        slice_index_or all.items number [] ≡ spec.others_of compiled.now number)) }
{
    let mut all = Vec::new(alloc);
    for number in 0..compiled.exports.len() {
        all.push(others_of(alloc, compiled, number)?)?;
    }
    Ok(all)
}

/// Libraries of these rows, exports and others that they use.
fn joined(
    alloc: Global,
    rows: Items<LibraryRow>,
    exports: Items<Exports>,
    others: Vec<Items<(Name, [u8; 32])>>,
) -> Result<Vec<Option<Library>>, AllocError>
    ensures { IfOk result (λ all. all.items
        ≡ map joined_library (zip (zip rows exports) others.items)) }
{
    let mut all = Vec::new(alloc);
    for ((row, exports), uses) in rows
        .into_vec()
        .into_iter()
        .zip(exports.into_vec())
        .zip(others)
    {
        let macros = Items::new(alloc);
        all.push(Some(Library {
            row,
            exports,
            macros,
            uses,
        }))?;
    }
    Ok(all)
}

/// All libraries, by their numbers.
fn all_libraries(alloc: Global, libraries: Libraries) -> Result<Vec<Option<Library>>, AllocError>
    requires { AreLibraries libraries }
    ensures { IfOk result (λ all. (number : ℕ) → number < length libraries.compiled.exports
        → slice_get all.items number ≡ Some (Some (spec.library_at libraries number))) }
{
    let Libraries { compiled, rows } = libraries;
    let others = all_others(alloc, &compiled)?;
    joined(alloc, rows, compiled.exports, others)
}

/// The libraries of these numbers, each of which is there, and none of which stands twice.
fn picked(
    alloc: Global,
    all: Vec<Option<Library>>,
    numbers: &[u32],
) -> Result<Vec<Library>, AllocError>
    requires there { All (λ number. (library : Library)
        × (slice_get all.items number ≡ Some (Some library))) numbers.now }
    requires once { IsDistinct nat_eq numbers.now }
    ensures { IfOk result (λ libraries. map held libraries.items
        ≡ map (slice_get all.items) numbers.now) }
{
    let mut all = all;
    let mut libraries = Vec::new(alloc);
    for number in numbers {
        match all[*number as usize].take() {
            Some(library) => libraries.push(library)?,
            None => unreachable!(),
        }
    }
    Ok(libraries)
}

/// The libraries of the program of a main library: all of its view in load order, each with what it
/// exports and the names of the others in its own view, and without macros (DRM 4, "Libraries").
/// Those that the main library does not use, directly or not, are left out. The one error is want
/// of memory.
pub fn libraries_of(
    alloc: Global,
    libraries: Libraries,
    main: usize,
) -> Result<Vec<Library>, AllocError>
    requires libraries { AreLibraries libraries }
    requires there { main < length libraries.compiled.exports }
    ensures { IfOk result (λ program. program.items ≡ spec.libraries_of libraries main) }
{
    let view = libraries.compiled.orders.as_slice()[main].as_slice();
    let numbers = Vec::from_slice(alloc, view)?;
    let all = all_libraries(alloc, libraries)?;
    picked(alloc, all, &numbers)
}
