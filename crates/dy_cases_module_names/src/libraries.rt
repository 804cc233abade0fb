//! The libraries that the cases use, and their numbers.

use dy_assembly::Heading;
use dy_base::{BindingId, Exports, Items, Name, Ref, What, fold};
use std::alloc::{AllocError, Global};

/// The number of the library that a case defines.
const OWN: u32 = 3;

/// A module with what its names stand for, by library and row.
type Module = (&'static str, &'static [(&'static str, What, u32, u32)]);

/// A library that can be used, with the modules that it exports.
type Library = (&'static str, &'static [Module]);

/// The libraries by their numbers.
const LIBRARIES: [Library; 3] = [
    (
        "dylan",
        &[(
            "dylan",
            &[
                ("<object>", What::Class, 0, 0),
                ("size", What::Generic, 0, 0),
                ("floor/", What::Function, 0, 0),
            ],
        )],
    ),
    (
        "io",
        &[("format-out", &[("format-out", What::Function, 1, 0)])],
    ),
    (
        "one",
        &[
            (
                "p",
                &[
                    ("<c>", What::Class, 2, 0),
                    ("f", What::Generic, 2, 0),
                    ("v", What::Variable, 2, 0),
                ],
            ),
            ("q", &[("f", What::Generic, 2, 1)]),
        ],
    ),
];

/// The name of a library.
pub(crate) fn library_name(number: u32) -> &'static str {
    match LIBRARIES.get(number as usize) {
        Some(library) => library.0,
        None => "l",
    }
}

/// What the library that a case defines is beside its rows. It uses all others.
pub(crate) fn heading(alloc: Global) -> Result<Heading, AllocError> {
    let mut uses = Items::new(alloc);
    for number in 0..OWN {
        uses.push(number)?;
    }
    Ok(Heading {
        number: OWN,
        name: fold(alloc, b"l")?,
        uses,
    })
}

fn names_of(
    alloc: Global,
    bound: &[(&str, What, u32, u32)],
) -> Result<Items<(Name, BindingId)>, AllocError> {
    let mut names = Items::new(alloc);
    for &(name, what, library, row) in bound {
        let at = Ref { library, row };
        names.push((fold(alloc, name.as_bytes())?, BindingId { what, at }))?;
    }
    Ok(names)
}

fn modules_of(
    alloc: Global,
    modules: &[Module],
) -> Result<Items<(Name, Items<(Name, BindingId)>)>, AllocError> {
    let mut list = Items::new(alloc);
    for &(name, bound) in modules {
        list.push((fold(alloc, name.as_bytes())?, names_of(alloc, bound)?))?;
    }
    Ok(list)
}

/// What the libraries that can be used export.
pub(crate) fn libraries(alloc: Global) -> Result<Vec<Exports>, AllocError> {
    let mut used = Vec::new(alloc);
    for &(name, modules) in &LIBRARIES {
        used.push(Exports {
            library: fold(alloc, name.as_bytes())?,
            modules: modules_of(alloc, modules)?,
            seen: Items::new(alloc),
        })?;
    }
    Ok(used)
}
