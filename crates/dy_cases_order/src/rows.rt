//! The rows of small programs.

use dy_base::{ClassId, ClassOrder, GenericId, Items, MethodId, Ref, fold};
use dy_term::{
    ClassRow, DyType, LibraryRow, Member, MethodCode, MethodRow, Params, Program, Results, Shape1,
};
use std::alloc::{AllocError, Global};

pub(crate) const OBJECT: ClassId = ClassId(Ref { library: 0, row: 0 });

pub(crate) const INTEGER: ClassId = ClassId(Ref { library: 0, row: 9 });

pub(crate) const GENERIC: GenericId = GenericId(Ref { library: 1, row: 0 });

pub(crate) fn class(library: u32, row: u32) -> ClassId {
    ClassId(Ref { library, row })
}

/// A method of the second library.
pub(crate) fn method(row: u32) -> MethodId {
    MethodId(Ref { library: 1, row })
}

pub(crate) fn class_row(alloc: Global, order: &[ClassId]) -> Result<ClassRow, AllocError> {
    Ok(ClassRow {
        name: fold(alloc, b"<c>".as_slice())?,
        supers: Items::new(alloc),
        order: ClassOrder::from_vec(alloc, order.to_vec(alloc)?)?,
        is_open: false,
        is_abstract: false,
        is_primary: false,
        slots: Items::new(alloc),
    })
}

/// A method of the first generic function of the second library.
pub(crate) fn method_row(alloc: Global, types: Items<DyType>) -> MethodRow {
    MethodRow {
        generic: GENERIC,
        params: Params {
            required: types,
            rest: false,
            keys: None,
            all_keys: false,
        },
        results: Results {
            required: Items::new(alloc),
            rest: None,
        },
        code: MethodCode::Builtin(0),
    }
}

/// A method on these classes.
pub(crate) fn on_classes(alloc: Global, classes: &[ClassId]) -> Result<MethodRow, AllocError> {
    let mut types = Items::new(alloc);
    for class in classes {
        let mut members = Items::new(alloc);
        members.push(Member::Class(*class))?;
        types.push(DyType { members })?;
    }
    Ok(method_row(alloc, types))
}

/// Arguments of these classes.
pub(crate) fn objects(alloc: Global, classes: &[ClassId]) -> Result<Vec<Shape1>, AllocError> {
    let mut shapes = Vec::new(alloc);
    for class in classes {
        shapes.push(Shape1 {
            class: *class,
            single: None,
        })?;
    }
    Ok(shapes)
}

pub(crate) fn library(
    alloc: Global,
    classes: Items<ClassRow>,
    methods: Items<MethodRow>,
) -> Result<LibraryRow, AllocError> {
    Ok(LibraryRow {
        name: fold(alloc, b"library".as_slice())?,
        uses: Items::new(alloc),
        classes,
        generics: Items::new(alloc),
        methods,
        domains: Items::new(alloc),
        variables: Items::new(alloc),
        tops: Items::new(alloc),
    })
}

/// A library that has the class `<object>` alone.
pub(crate) fn first_library(alloc: Global) -> Result<LibraryRow, AllocError> {
    let mut classes = Items::new(alloc);
    classes.push(class_row(alloc, [OBJECT].as_slice())?)?;
    library(alloc, classes, Items::new(alloc))
}

/// A program of that library and one other.
pub(crate) fn program(alloc: Global, own: LibraryRow) -> Result<Program, AllocError> {
    let mut libraries = Items::new(alloc);
    libraries.push(first_library(alloc)?)?;
    libraries.push(own)?;
    Ok(Program { libraries })
}
