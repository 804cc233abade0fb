//! What is told of files, and what is answered of the table of their modules.

use crate::files::{Case, File};
use crate::libraries::{OWN, function, library_name};
use crate::reading::table_of;
use dy_base::{BindingId, Fault, Name, Place, Refusal, fold};
use dy_module_tables::ModuleTable;
use std::alloc::{AllocError, Global};

fn write_bytes(bytes: &[u8], out: &mut String) -> Result<(), AllocError> {
    for byte in bytes {
        out.push(char::from(*byte))?;
    }
    Ok(())
}

/// The line and the column of an offset, both from 1.
fn line_and_column(text: &str, offset: u32) -> (u64, u64) {
    let (mut line, mut column) = (1u64, 1u64);
    for byte in text.as_bytes().iter().take(offset as usize) {
        if *byte == b'\n' {
            line = line.saturating_add(1);
            column = 1;
        } else {
            column = column.saturating_add(1);
        }
    }
    (line, column)
}

/// A place by the number of its file, its line and its column, all from 1.
fn write_place(files: &[File], place: Place, out: &mut String) -> Result<(), AllocError> {
    let text = match files.get(place.file as usize) {
        Some(file) => file.text.as_str(),
        None => "",
    };
    let file = u64::from(place.file) + 1;
    let (line, column) = line_and_column(text, place.offset);
    write!(out, " at {file}:{line}:{column}").map_err(|_| AllocError)
}

fn write_fault(files: &[File], fault: &Fault, out: &mut String) -> Result<(), AllocError> {
    write!(out, "{}", fault.kind.code()).map_err(|_| AllocError)?;
    for name in fault.shown.as_slice() {
        out.push(' ')?;
        write_bytes(name.bytes(), out)?;
    }
    match fault.place {
        Some(place) => write_place(files, place, out),
        None => Ok(()),
    }
}

fn write_function(id: BindingId, out: &mut String) -> Result<(), AllocError> {
    let library = library_name(id.at.library);
    write!(out, "{library}:{}", id.at.row).map_err(|_| AllocError)
}

fn write_owner(id: Option<BindingId>, out: &mut String) -> Result<(), AllocError> {
    match id {
        Some(id) => write_function(id, out),
        None => out.push_str("none"),
    }
}

fn write_undefined(
    files: &[File],
    found: Option<(&Name, Place)>,
    out: &mut String,
) -> Result<(), AllocError> {
    match found {
        Some((name, place)) => {
            write_bytes(name.bytes(), out)?;
            write_place(files, place, out)
        }
        None => out.push_str("none"),
    }
}

fn write_names(names: &[(Name, BindingId)], out: &mut String) -> Result<(), AllocError> {
    for (place, (name, id)) in names.iter().enumerate() {
        if place > 0 {
            out.push_str(", ")?;
        }
        write_bytes(name.bytes(), out)?;
        out.push(' ')?;
        write_function(*id, out)?;
    }
    Ok(())
}

fn write_exports(alloc: Global, table: &ModuleTable, out: &mut String) -> Result<(), AllocError> {
    let modules = table.exports(alloc)?;
    if modules.len() == 0 {
        return out.push_str("none");
    }
    for (place, (module, names)) in modules.as_slice().iter().enumerate() {
        if place > 0 {
            out.push(' ')?;
        }
        write_bytes(module.bytes(), out)?;
        out.push('(')?;
        write_names(names.as_slice(), out)?;
        out.push(')')?;
    }
    Ok(())
}

/// What a table answers. A definition is that of the function of a row.
fn write_answer(
    alloc: Global,
    files: &[File],
    question: &str,
    row: u32,
    table: &mut ModuleTable,
    out: &mut String,
) -> Result<(), AllocError> {
    let mut words = question.split(' ');
    let what = words.next().unwrap_or("");
    let module = words.next().unwrap_or("").parse().unwrap_or(u32::MAX);
    let name = fold(alloc, words.next().unwrap_or("").as_bytes())?;
    match what {
        "owner" => write_owner(table.owner(module, &name), out),
        "undefined" => write_undefined(files, table.undefined(), out),
        "exports" => write_exports(alloc, table, out),
        "define" => {
            let is_new = table.define(alloc, module, &name, function(OWN, row))?;
            write!(out, "{is_new}").map_err(|_| AllocError)
        }
        _ => out.push_str("?"),
    }
}

fn write_answers(
    alloc: Global,
    case: &Case,
    table: &mut ModuleTable,
    out: &mut String,
) -> Result<(), AllocError> {
    if case.questions.is_empty() {
        return out.push_str("fine");
    }
    for (number, question) in case.questions.iter().enumerate() {
        if number > 0 {
            out.push_str("; ")?;
        }
        let row = u32::try_from(number).unwrap_or(u32::MAX);
        write_answer(alloc, &case.files, question.as_str(), row, table, out)?;
    }
    Ok(())
}

/// What is told of the files of a case, or what is answered.
pub(crate) fn write_case(alloc: Global, case: &Case, out: &mut String) -> Result<(), AllocError> {
    match table_of(alloc, &case.files) {
        Ok(mut table) => write_answers(alloc, case, &mut table, out),
        Err(Refusal::Fault(fault)) => write_fault(&case.files, &fault, out),
        Err(Refusal::Memory) => Err(AllocError),
    }
}
