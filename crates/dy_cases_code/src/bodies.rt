//! The code of bodies.

use dy_core_text::Written;
use dy_lambdas::{count, count_with_inner, lambdas_inside};
use dy_layouts::Layout;
use dy_lower_terms::{Buffer, Refusal, emit};
use dy_show_code::write_code;
use dy_term::{Lambda, LibraryRow, MethodCode, Program, Term, TopTerm};
use std::alloc::{AllocError, Global};

/// Adds the code of a term whose locals stand so, in brackets. The next body of a closure behind
/// the term has this number.
fn write_term(
    alloc: Global,
    out: &mut Written,
    program: &Program,
    layout: &Layout,
    term: &Term,
    behind: usize,
) -> Result<(), AllocError> {
    let mut number = behind;
    let mut code = Buffer::new(alloc);
    out.word("[");
    match emit(alloc, layout, term, &mut number, &mut code) {
        Ok(()) => write_code(out, program, &code),
        Err(Refusal::Memory) => return Err(AllocError),
    }
    out.word("]");
    Ok(())
}

/// Adds the code of a lambda's body.
fn write_body(
    alloc: Global,
    out: &mut Written,
    program: &Program,
    lambda: &Lambda,
    behind: usize,
) -> Result<(), AllocError> {
    let layout = Layout::of_lambda(alloc, lambda)?;
    write_term(alloc, out, program, &layout, &lambda.body, behind)
}

/// Adds the code of the bodies of all closures inside of a term, which are numbered from 0 on.
fn write_closures(
    alloc: Global,
    out: &mut Written,
    program: &Program,
    term: &Term,
) -> Result<(), AllocError> {
    let mut lambdas = Vec::new(alloc);
    lambdas_inside(term, &mut lambdas)?;
    for (number, lambda) in lambdas.iter().enumerate() {
        let behind = number.saturating_add(count_with_inner(alloc, lambda)?);
        write_body(alloc, out, program, lambda, behind)?;
    }
    Ok(())
}

/// Adds the code of the body of a row, and of the closures in it.
fn write_row(
    alloc: Global,
    out: &mut Written,
    program: &Program,
    lambda: &Lambda,
) -> Result<(), AllocError> {
    let behind = count(alloc, &lambda.body)?;
    write_body(alloc, out, program, lambda, behind)?;
    write_closures(alloc, out, program, &lambda.body)
}

/// Adds the code of a form that runs, and of the closures in it.
fn write_top(
    alloc: Global,
    out: &mut Written,
    program: &Program,
    top: &TopTerm,
) -> Result<(), AllocError> {
    match top {
        TopTerm::Init(_, term) | TopTerm::Run(term) => {
            let layout = Layout::of_term(alloc, term)?;
            write_term(alloc, out, program, &layout, term, count(alloc, term)?)?;
            write_closures(alloc, out, program, term)
        }
    }
}

/// Adds the code of the bodies of a library: methods, functions, and forms that run.
fn write_bodies(
    alloc: Global,
    out: &mut Written,
    program: &Program,
    library: &LibraryRow,
) -> Result<(), AllocError> {
    for method in library.methods.as_slice() {
        if let MethodCode::Dylan(lambda) = &method.code {
            write_row(alloc, out, program, lambda)?;
        }
    }
    for variable in library.variables.as_slice() {
        if let Some(lambda) = &variable.function {
            write_row(alloc, out, program, lambda)?;
        }
    }
    for top in library.tops.as_slice() {
        write_top(alloc, out, program, top)?;
    }
    Ok(())
}

/// Adds the code of the bodies of a program's own library, which is the last one.
fn write_library(alloc: Global, out: &mut Written, program: &Program) -> Result<(), AllocError> {
    match program.libraries.as_slice().last() {
        None => Ok(()),
        Some(library) => write_bodies(alloc, out, program, library),
    }
}

/// The code of the bodies of a program's own library.
pub(crate) fn shown_library(alloc: Global, program: &Program) -> Result<String, AllocError> {
    let mut out = Written::new(alloc);
    write_library(alloc, &mut out, program)?;
    out.whole()
}
