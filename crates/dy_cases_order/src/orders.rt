//! Sorted methods: the rows of those that are sorted, a bar, and those that remain.

use crate::classes::{class_of, libraries_of};
use crate::rows::{INTEGER, method_row};
use dy_base::{GenericId, Items, MethodId, Ref};
use dy_order::{Dispatch, Plain, Sorted};
use dy_term::{DyType, Literal, Member, MethodRow, Program, Shape1};
use std::alloc::{AllocError, Global};

/// A member by its word: a number, numbers from one to another, or a class by its letter.
fn member_of(word: &str) -> Member {
    if let Some((least, greatest)) = word.split_once('-') {
        return Member::Range(least.parse().unwrap_or(0), greatest.parse().unwrap_or(0));
    }
    match word.parse() {
        Ok(number) => Member::Single(Literal::Int(number)),
        Err(_) => Member::Class(class_of(word.bytes().next().unwrap_or(b'o'))),
    }
}

fn type_of(alloc: Global, word: &str) -> Result<DyType, AllocError> {
    let mut members = Items::new(alloc);
    for member in word.split('/') {
        members.push(member_of(member))?;
    }
    Ok(DyType { members })
}

fn method_of(alloc: Global, word: &str) -> Result<MethodRow, AllocError> {
    let mut types = Items::new(alloc);
    for declared in word.split(',') {
        types.push(type_of(alloc, declared)?)?;
    }
    Ok(method_row(alloc, types))
}

fn argument_of(word: &str) -> Shape1 {
    match word.parse() {
        Ok(number) => Shape1 {
            class: INTEGER,
            single: Some(Member::Single(Literal::Int(number))),
        },
        Err(_) => Shape1 {
            class: class_of(word.bytes().next().unwrap_or(b'o')),
            single: None,
        },
    }
}

fn write_rows(methods: &Items<MethodId>, shown: &mut String) -> Result<(), AllocError> {
    for method in methods.as_slice() {
        let row = method.0.row;
        write!(shown, "{row}").map_err(|_| AllocError)?;
    }
    Ok(())
}

fn program_of(alloc: Global, classes: &str, methods: &str) -> Result<Program, AllocError> {
    let mut rows = Items::new(alloc);
    for method in methods.split(' ') {
        rows.push(method_of(alloc, method)?)?;
    }
    libraries_of(alloc, classes, rows)
}

/// Three lines: the orders of classes (`libraries_of`); methods with blanks between, each with
/// commas between its types; arguments with commas between them, and `of` and the row of another
/// generic function. A type has bars between its members.
pub(crate) fn write_order(alloc: Global, text: &str, shown: &mut String) -> Result<(), AllocError> {
    let (classes, behind) = text.split_once('\n').unwrap_or((text, ""));
    let (methods, args) = behind.split_once('\n').unwrap_or((behind, ""));
    let (args, row) = args.split_once(" of ").unwrap_or((args, "0"));
    let row = row.parse().unwrap_or(0);
    let program = program_of(alloc, classes, methods)?;
    let mut shapes = Vec::new(alloc);
    for argument in args.split(',') {
        shapes.push(argument_of(argument))?;
    }
    let mut found = Sorted {
        first: Items::new(alloc),
        rest: Items::new(alloc),
    };
    let plain = Plain { program: &program };
    plain.answer(
        alloc,
        GenericId(Ref { library: 1, row }),
        &shapes,
        &mut found,
    )?;
    write_rows(&found.first, shown)?;
    shown.push('|')?;
    write_rows(&found.rest, shown)
}
