//! A program over tables.

use crate::table::{Failure, Subject, Table};
use dy_io::{Files, Found, HostFiles, HostSink, Sink};
use std::alloc::{AllocError, Global};
use std::process::ExitCode;
use std::{env, io, str};

/// The most bytes that a table may have.
const FILE_LIMIT: usize = 1_048_576;

/// The words after the program's name.
fn words(rt: &HostRuntime, alloc: Global) -> io::Result<Vec<String>> {
    let mut words = Vec::new(alloc);
    for word in env::args(rt)?.skip(1) {
        words.push(word)?;
    }
    Ok(words)
}

fn read<F: Files>(alloc: Global, files: &mut F, name: &str) -> Result<Vec<u8>, Failure> {
    let mut bytes = Vec::new(alloc);
    match files.read(alloc, name, FILE_LIMIT as u64 + 1, &mut bytes) {
        Ok(Found::Here) => {}
        _ => return Err(Failure::Table),
    }
    if bytes.len() > FILE_LIMIT {
        return Err(Failure::Table);
    }
    Ok(bytes)
}

/// Compares a table, tells each case that differs, and how many cases there are.
fn compare_table<S: Subject, O: Sink>(
    alloc: Global,
    subject: &S,
    name: &str,
    bytes: &[u8],
    out: &mut O,
) -> Result<bool, Failure> {
    let Ok(text) = str::from_utf8(bytes) else {
        return Err(Failure::Table);
    };
    let mut table = Table::new(alloc, name);
    for line in text.split('\n') {
        table.take(alloc, subject, line, out)?;
    }
    let mut told = String::new(alloc);
    let (cases, differing) = (table.cases, table.differing);
    write!(told, "{name}: {cases} cases, {differing} differ\n").map_err(|_| AllocError)?;
    out.put(told.as_bytes())?;
    Ok(differing == 0 && cases > 0)
}

fn compare_all<S: Subject, F: Files, O: Sink>(
    alloc: Global,
    subject: &S,
    names: &[String],
    files: &mut F,
    out: &mut O,
) -> Result<bool, Failure> {
    let mut is_right = !names.is_empty();
    for name in names {
        let bytes = read(alloc, files, name.as_str())?;
        if !compare_table(alloc, subject, name.as_str(), &bytes, out)? {
            is_right = false;
        }
    }
    Ok(is_right)
}

/// A program's whole work: it compares the tables that its words name, and prints how many cases
/// each has, behind those that differ. A case is some lines of text and then a line that begins
/// with `-->`, behind which stands what is to be shown of the text. Lines that begin with `==` are
/// headings. In both, `«3|x»` stands for `xxx`.
///
/// The status is 0 where no case differs, 1 where one does or a table has none, 4 where a table
/// cannot be read, 5 where the output cannot be written, and 6 where memory did not suffice.
pub fn compare_tables<S: Subject>(rt: &HostRuntime, subject: &S) -> ExitCode {
    let alloc = rt.alloc();
    let Ok(names) = words(rt, alloc) else {
        return ExitCode::from(6);
    };
    let mut files = HostFiles::new(rt);
    let mut out = HostSink::new(rt.stdout());
    match compare_all(alloc, subject, &names, &mut files, &mut out) {
        Ok(true) => ExitCode::from(0),
        Ok(false) => ExitCode::from(1),
        Err(Failure::Table) => ExitCode::from(4),
        Err(Failure::Output) => ExitCode::from(5),
        Err(Failure::Memory) => ExitCode::from(6),
    }
}
