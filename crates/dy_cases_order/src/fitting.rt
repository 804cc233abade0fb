//! Congruence, domains, duplicates and implicit generic functions.

use crate::rows::{GENERIC, OBJECT, class, class_row, library, method, program};
use crate::shapes::{params_of, results_of, types_of};
use dy_base::{DomainId, Items, Ref, fold};
use dy_generics::{Misfit, congruent, congruent_domain, duplicate, implicit};
use dy_term::{DomainRow, GenericRow, LibraryRow, MethodCode, MethodRow, Program};
use std::alloc::{AllocError, Global};

/// A library with the classes `<a>` and `<b>`, and a generic function.
fn own_library(alloc: Global, generic: &str) -> Result<LibraryRow, AllocError> {
    let (a, b) = (class(1, 0), class(1, 1));
    let mut classes = Items::new(alloc);
    classes.push(class_row(alloc, [a, OBJECT].as_slice())?)?;
    classes.push(class_row(alloc, [b, a, OBJECT].as_slice())?)?;
    let mut own = library(alloc, classes, Items::new(alloc))?;
    own.generics.push(GenericRow {
        name: fold(alloc, b"g".as_slice())?,
        is_open: true,
        params: params_of(alloc, generic)?,
        results: results_of(alloc, generic)?,
    })?;
    Ok(own)
}

/// Those classes, that generic function, and methods of it with blanks between.
fn with_methods(alloc: Global, generic: &str, methods: &str) -> Result<Program, AllocError> {
    let mut own = own_library(alloc, generic)?;
    for shape in methods.split(' ') {
        own.methods.push(MethodRow {
            generic: GENERIC,
            params: params_of(alloc, shape)?,
            results: results_of(alloc, shape)?,
            code: MethodCode::Builtin(0),
        })?;
    }
    program(alloc, own)
}

fn write_test(answer: &Result<(), Misfit>, shown: &mut String) -> Result<(), AllocError> {
    let Err(misfit) = answer else {
        return shown.push_str("fits");
    };
    let (word, position) = (misfit.reason.word(), misfit.position);
    write!(shown, "{word} {position}").map_err(|_| AllocError)
}

/// The first test that a method of a generic function fails, the method first.
pub(crate) fn write_congruence(
    alloc: Global,
    text: &str,
    shown: &mut String,
) -> Result<(), AllocError> {
    let (own, wanted) = text.split_once(' ').unwrap_or((text, ""));
    let program = with_methods(alloc, wanted, own)?;
    write_test(&congruent(&program, method(0)), shown)
}

/// Whether a domain has as many types as a generic function of two parameters.
pub(crate) fn write_domain(
    alloc: Global,
    text: &str,
    shown: &mut String,
) -> Result<(), AllocError> {
    let mut own = own_library(alloc, "oo||-||o")?;
    own.domains.push(DomainRow {
        generic: GENERIC,
        types: types_of(alloc, text)?,
        result: None,
    })?;
    let program = program(alloc, own)?;
    let domain = DomainId(Ref { library: 1, row: 0 });
    write_test(&congruent_domain(&program, domain), shown)
}

/// Of each method the row of the first earlier one that it doubles, or `-`.
pub(crate) fn write_duplicates(
    alloc: Global,
    text: &str,
    shown: &mut String,
) -> Result<(), AllocError> {
    let program = with_methods(alloc, "oo||-||o", text)?;
    for (row, _) in text.split(' ').enumerate() {
        match duplicate(&program, method(row.min(999) as u32)) {
            Some(other) => {
                let found = other.0.row;
                write!(shown, "{found} ").map_err(|_| AllocError)?;
            }
            None => shown.push_str("- ")?,
        }
    }
    Ok(())
}

/// The row of the generic function that a first method makes.
pub(crate) fn write_implicit(
    alloc: Global,
    text: &str,
    shown: &mut String,
) -> Result<(), AllocError> {
    let program = with_methods(alloc, "o||-||o", text)?;
    let row = implicit(alloc, &program, method(0))?;
    for byte in row.name.bytes() {
        shown.push(char::from(*byte))?;
    }
    let (required, rest) = (row.params.required.len(), row.params.rest);
    let keys = row.params.keys.as_ref().map(|keys| keys.len());
    let results = row.results.required.len();
    let (is_open, all_keys) = (row.is_open, row.params.all_keys);
    write!(shown, ": {required} required, rest {rest}, keys {keys:?}, ").map_err(|_| AllocError)?;
    write!(
        shown,
        "all-keys {all_keys}, results {results}, open {is_open}"
    )
    .map_err(|_| AllocError)
}
