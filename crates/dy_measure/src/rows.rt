//! Rows of classes and methods.

use dy_base::{ClassId, ClassOrder, Items, Ref, fold};
use dy_term::{ClassRow, LibraryRow, MethodRow, Program};
use std::alloc::{AllocError, Global};

/// The class of this row.
pub(crate) fn class(row: u32) -> ClassId {
    ClassId(Ref { library: 0, row })
}

/// A class with these superclasses and this order.
pub(crate) fn class_row(
    alloc: Global,
    supers: Vec<ClassId>,
    order: ClassOrder,
) -> Result<ClassRow, AllocError> {
    Ok(ClassRow {
        name: fold(alloc, b"<class>".as_slice())?,
        supers: Items::from_vec(supers),
        order,
        is_open: false,
        is_abstract: false,
        is_primary: false,
        slots: Items::new(alloc),
    })
}

/// A program of one library with these classes and methods.
pub(crate) fn program(
    alloc: Global,
    classes: Vec<ClassRow>,
    methods: Vec<MethodRow>,
) -> Result<Program, AllocError> {
    let mut libraries = Items::new(alloc);
    libraries.push(LibraryRow {
        name: fold(alloc, b"dylan".as_slice())?,
        uses: Items::new(alloc),
        classes: Items::from_vec(classes),
        generics: Items::new(alloc),
        methods: Items::from_vec(methods),
        domains: Items::new(alloc),
        variables: Items::new(alloc),
        tops: Items::new(alloc),
    })?;
    Ok(Program { libraries })
}
