//! What is told of files, and what names mean in their modules.

use crate::files::{Case, File};
use crate::forms::forms_of;
use crate::libraries::{heading, library_name};
use crate::modules::table_of;
use crate::words::words;
use dy_base::{BindingId, Fault, Items, Name, Place, Refusal, What, fold};
use dy_library_names::name_library;
use dy_module_names::resolve;
use dy_module_tables::ModuleTable;
use dy_term::{Draft, LibraryRow, Row};
use std::alloc::{AllocError, Global};

fn write_bytes(bytes: &[u8], out: &mut String) -> Result<(), AllocError> {
    for byte in bytes {
        out.push(char::from(*byte))?;
    }
    Ok(())
}

/// The line and the column of an offset, both from 1.
fn line_and_column(text: &str, offset: u32) -> (u64, u64) {
    let (mut line, mut column) = (1u64, 1u64);
    for byte in text.as_bytes().iter().take(offset as usize) {
        if *byte == b'\n' {
            line = line.saturating_add(1);
            column = 1;
        } else {
            column = column.saturating_add(1);
        }
    }
    (line, column)
}

/// A place by the number of its file, its line and its column, all from 1.
fn write_place(files: &[File], place: Place, out: &mut String) -> Result<(), AllocError> {
    let text = match files.get(place.file as usize) {
        Some(file) => file.text.as_str(),
        None => "",
    };
    let file = u64::from(place.file) + 1;
    let (line, column) = line_and_column(text, place.offset);
    write!(out, " at {file}:{line}:{column}").map_err(|_| AllocError)
}

fn write_fault(files: &[File], fault: &Fault, out: &mut String) -> Result<(), AllocError> {
    write!(out, "{}", fault.kind.code()).map_err(|_| AllocError)?;
    for name in fault.shown.as_slice() {
        out.push(' ')?;
        write_bytes(name.bytes(), out)?;
    }
    match fault.place {
        Some(place) => write_place(files, place, out),
        None => Ok(()),
    }
}

fn word_of(what: What) -> &'static str {
    match what {
        What::Class => "class",
        What::Generic => "generic",
        What::Variable => "variable",
        What::Constant => "constant",
        What::Function => "function",
        What::Macro => "macro",
    }
}

fn write_owner(owner: Option<BindingId>, out: &mut String) -> Result<(), AllocError> {
    match owner {
        Some(id) => {
            let (what, library) = (word_of(id.what), library_name(id.at.library));
            write!(out, "{what} {library}:{}", id.at.row).map_err(|_| AllocError)
        }
        None => out.push_str("none"),
    }
}

/// What a module, by its number, means by a name.
fn write_meaning(
    alloc: Global,
    question: &str,
    table: &ModuleTable,
    out: &mut String,
) -> Result<(), AllocError> {
    let mut words = question.split(' ');
    let module = words.next().unwrap_or("").parse().unwrap_or(u32::MAX);
    let name = fold(alloc, words.next().unwrap_or("").as_bytes())?;
    write_owner(table.owner(module, &name), out)
}

/// What a module exports.
fn write_module(
    module: &Name,
    names: &Items<(Name, BindingId)>,
    out: &mut String,
) -> Result<(), AllocError> {
    write_bytes(module.bytes(), out)?;
    out.push(':')?;
    for (name, id) in names.as_slice() {
        out.push(' ')?;
        write_bytes(name.bytes(), out)?;
        out.push_str(" = ")?;
        write_owner(Some(*id), out)?;
    }
    Ok(())
}

/// What the library exports.
fn write_exports(alloc: Global, table: &ModuleTable, out: &mut String) -> Result<(), AllocError> {
    for (number, (module, names)) in table.exports(alloc)?.as_slice().iter().enumerate() {
        if number > 0 {
            out.push_str(", ")?;
        }
        write_module(module, names, out)?;
    }
    Ok(())
}

fn write_answers(
    alloc: Global,
    case: &Case,
    table: &ModuleTable,
    out: &mut String,
) -> Result<(), AllocError> {
    if case.questions.is_empty() {
        return out.push_str("fine");
    }
    for (number, question) in case.questions.iter().enumerate() {
        if number > 0 {
            out.push_str("; ")?;
        }
        if question.as_str() == "exports" {
            write_exports(alloc, table, out)?;
        } else {
            write_meaning(alloc, question.as_str(), table, out)?;
        }
    }
    Ok(())
}

/// How many of these rows are none of generic functions.
fn count_others(rows: &[Row]) -> usize {
    let mut count = 0usize;
    for row in rows {
        match row {
            Row::Generic(_) => {}
            Row::Class(_) | Row::Method(_) | Row::Domain(_) | Row::Variable(_) | Row::Top(_) => {
                count = count.saturating_add(1);
            }
        }
    }
    count
}

/// How many rows these forms have, each by itself, but those of generic functions.
fn count_rows(
    alloc: Global,
    table: &ModuleTable,
    forms: &[(Place, Draft)],
) -> Result<usize, Refusal> {
    let mut count = 0usize;
    for (_place, draft) in forms {
        let rows = resolve(alloc, table, draft)?;
        count = count.saturating_add(count_others(rows.as_slice()));
    }
    Ok(count)
}

/// How many rows a library has, but those of generic functions, of which methods and slots make
/// more.
fn count_of(library: &LibraryRow) -> usize {
    library
        .classes
        .len()
        .saturating_add(library.methods.len())
        .saturating_add(library.domains.len())
        .saturating_add(library.variables.len())
        .saturating_add(library.tops.len())
}

fn write_names(alloc: Global, case: &Case, out: &mut String) -> Result<(), Refusal> {
    let words = words(alloc)?;
    let (table, doubled) = table_of(alloc, &case.files, &words)?;
    let forms = forms_of(alloc, &case.files, &words)?;
    let named = name_library(alloc, heading(alloc)?, &words, table, doubled, &forms)?;
    if count_rows(alloc, &named.table, &forms)? != count_of(&named.library) {
        out.push_str("other rows; ")?;
    }
    write_answers(alloc, case, &named.table, out)?;
    Ok(())
}

/// What is told of the files of a case, or what is answered.
pub(crate) fn write_case(alloc: Global, case: &Case, out: &mut String) -> Result<(), AllocError> {
    match write_names(alloc, case, out) {
        Ok(()) => Ok(()),
        Err(Refusal::Fault(fault)) => write_fault(&case.files, &fault, out),
        Err(Refusal::Memory) => Err(AllocError),
    }
}
