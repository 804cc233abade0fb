//! Commands as texts: what the second file of the library `hello` holds behind its header, and lines
//! for what is otherwise.
//!
//! `@words` has the words, `@words+` further ones behind them, `@failing` the calls of files, of the
//! output and of the error output that fail, `@file` the name of a file that begins in the next line,
//! `@libraries` how many libraries `l1`, `l2` and so on there are that hold nothing, whose LID files
//! are further words, and behind `@text` the text goes on.

use crate::commands::Command;
use dy_io::MemFiles;
use std::alloc::{AllocError, Global};

/// The first file of the library `hello`.
const LIBRARY: &str = "module: dylan-user

define library hello use dylan; use io; end;
define module hello use dylan; use format-out; end;
";

const HEADER: &str = "module: hello\n\n";

/// A file that is read line by line. A character stands for the byte of its number.
#[derive(Drop)]
struct Lines<'a> {
    name: &'a str,
    bytes: Vec<u8>,
    has_line: bool,
}

impl<'a> Lines<'a> {
    fn new(alloc: Global, name: &'a str, front: &str) -> Result<Lines<'a>, AllocError> {
        Ok(Lines {
            name,
            bytes: Vec::from_slice(alloc, front.as_bytes())?,
            has_line: false,
        })
    }

    fn add(&mut self, line: &str) -> Result<(), AllocError> {
        if self.has_line {
            self.bytes.push(b'\n')?;
        }
        self.has_line = true;
        for letter in line.chars() {
            self.bytes
                .push(u8::try_from(u32::from(letter)).unwrap_or(b'?'))?;
        }
        Ok(())
    }
}

/// The library `hello` without its second file, and the words that build it.
fn plain(alloc: Global) -> Result<Command, AllocError> {
    let mut files = MemFiles::new(alloc);
    files.add("hello.lid", b"library: hello\nfiles: library\n hello\n")?;
    files.add("library.dylan", LIBRARY.as_bytes())?;
    Ok(Command {
        words: words_of(alloc, "build hello.lid")?,
        files,
        failing: (0, 0),
    })
}

fn words_of(alloc: Global, line: &str) -> Result<Vec<String>, AllocError> {
    let mut words = Vec::new(alloc);
    for word in line.split(' ') {
        words.push(String::from_str(alloc, word)?)?;
    }
    Ok(words)
}

/// The number of a word, and 0 for another word.
fn number_at(line: &str, place: usize) -> u64 {
    line.split(' ')
        .nth(place)
        .unwrap_or("")
        .parse()
        .unwrap_or(0)
}

fn fail(command: &mut Command, line: &str) -> Result<(), AllocError> {
    command.failing = (number_at(line, 1), number_at(line, 2));
    command.files.fail_at(number_at(line, 0))
}

/// Adds a library that holds nothing, and the word that names it.
fn add_library(alloc: Global, command: &mut Command, number: u64) -> Result<(), AllocError> {
    let lid = format!(in alloc; "l{number}.lid")?;
    let source = format!(in alloc; "l{number}.dylan")?;
    let files = format!(in alloc; "library: l{number}\nfiles: l{number}\n")?;
    let form = format!(in alloc; "module: dylan-user\n\ndefine library l{number} end;\n")?;
    command.files.add(lid.as_str(), files.as_bytes())?;
    command.files.add(source.as_str(), form.as_bytes())?;
    command.words.push(lid)?;
    Ok(())
}

/// Adds libraries that hold nothing, numbered from 1.
fn add_libraries(alloc: Global, command: &mut Command, count: u64) -> Result<(), AllocError> {
    for number in 0..count {
        add_library(alloc, command, number + 1)?;
    }
    Ok(())
}

pub(crate) fn command_of(alloc: Global, text: &str) -> Result<Command, AllocError> {
    let mut command = plain(alloc)?;
    let mut lines = Lines::new(alloc, "hello.dylan", HEADER)?;
    for line in text.split('\n') {
        if line == "@words" {
            command.words = Vec::new(alloc);
        } else if line == "@text" {
            lines.has_line = false;
        } else if let Some(words) = line.strip_prefix("@words ") {
            command.words = words_of(alloc, words)?;
        } else if let Some(words) = line.strip_prefix("@words+ ") {
            command.words.append(&mut words_of(alloc, words)?)?;
        } else if let Some(count) = line.strip_prefix("@libraries ") {
            add_libraries(alloc, &mut command, number_at(count, 0))?;
        } else if let Some(calls) = line.strip_prefix("@failing ") {
            fail(&mut command, calls)?;
        } else if let Some(name) = line.strip_prefix("@file ") {
            command.files.add(lines.name, &lines.bytes)?;
            lines = Lines::new(alloc, name, "")?;
        } else {
            lines.add(line)?;
        }
    }
    command.files.add(lines.name, &lines.bytes)?;
    Ok(command)
}
