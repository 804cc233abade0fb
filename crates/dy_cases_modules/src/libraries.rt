//! The libraries that the cases use, and their numbers.

use dy_base::{BindingId, Exports, Items, Name, Ref, What, fold};
use std::alloc::{AllocError, Global};

/// The number of the library that a case defines.
pub(crate) const OWN: u32 = 5;

/// A module with the functions that its names stand for, by library and row.
type Module = (&'static str, &'static [(&'static str, u32, u32)]);

/// A library that can be used, with the modules that it exports, and those that templates of its
/// macros see.
type Library = (&'static str, &'static [Module], &'static [Module]);

/// A module that the libraries `one` and `two` export.
const P: Module = ("p", &[("x", 2, 0), ("y", 2, 1)]);

/// The libraries by their numbers.
const LIBRARIES: [Library; 5] = [
    ("dylan", &[("dylan", &[("size", 0, 0)])], &[]),
    ("io", &[("format-out", &[("format-out", 1, 0)])], &[]),
    ("one", &[P, ("q", &[("z", 2, 2)])], &[]),
    ("two", &[P, ("q", &[("z", 3, 0)])], &[]),
    (
        "three",
        &[("p", &[("x", 2, 0)]), ("r", &[("x", 4, 0)])],
        &[("s", &[("w", 4, 1)])],
    ),
];

/// The name of a library.
pub(crate) fn library_name(number: u32) -> &'static str {
    match LIBRARIES.get(number as usize) {
        Some(library) => library.0,
        None => "l",
    }
}

/// A function of a library.
pub(crate) fn function(library: u32, row: u32) -> BindingId {
    BindingId {
        what: What::Function,
        at: Ref { library, row },
    }
}

fn names_of(
    alloc: Global,
    functions: &[(&str, u32, u32)],
) -> Result<Items<(Name, BindingId)>, AllocError> {
    let mut names = Items::new(alloc);
    for &(name, library, row) in functions {
        names.push((fold(alloc, name.as_bytes())?, function(library, row)))?;
    }
    Ok(names)
}

fn modules_of(
    alloc: Global,
    modules: &[Module],
) -> Result<Items<(Name, Items<(Name, BindingId)>)>, AllocError> {
    let mut list = Items::new(alloc);
    for &(name, functions) in modules {
        list.push((fold(alloc, name.as_bytes())?, names_of(alloc, functions)?))?;
    }
    Ok(list)
}

/// What the libraries that can be used export.
pub(crate) fn libraries(alloc: Global) -> Result<Vec<Exports>, AllocError> {
    let mut used = Vec::new(alloc);
    for &(name, modules, seen) in &LIBRARIES {
        used.push(Exports {
            library: fold(alloc, name.as_bytes())?,
            modules: modules_of(alloc, modules)?,
            seen: modules_of(alloc, seen)?,
        })?;
    }
    Ok(used)
}
