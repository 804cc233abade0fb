//! The cases of a table, compared one after the other.

ghost use Rattle.std.specs.Prelude.{◌<◌, ◌^◌, length};

use crate::repeats::expanded;
use dy_io::{Sink, WriteFail};
use std::alloc::{AllocError, Global};

/// The most bytes that the text of a case may have.
const TEXT_LIMIT: usize = 16_777_216;

/// What the cases of a table are about.
pub trait Subject {
    /// What is shown of a text in the table of this name, in one line.
    fn shown(&self, alloc: Global, table: &str, text: &str) -> Result<String, AllocError>
        requires { length text.now < 2 ^ 31 };
}

/// Why a table is not compared to its end.
pub(crate) enum Failure {
    /// A file cannot be read, or it is no table.
    Table,
    /// The output cannot be written.
    Output,
    /// Memory did not suffice.
    Memory,
}

impl From<AllocError> for Failure {
    fn from(_: AllocError) -> Failure {
        Failure::Memory
    }
}

impl From<WriteFail> for Failure {
    fn from(_: WriteFail) -> Failure {
        Failure::Output
    }
}

/// How many cases were compared, how many of them differ, and the lines of the next one.
#[derive(Drop)]
pub(crate) struct Table<'a> {
    name: &'a str,
    pub(crate) cases: u64,
    pub(crate) differing: u64,
    text: String,
    has_text: bool,
}

impl<'a> Table<'a> {
    pub(crate) fn new(alloc: Global, name: &'a str) -> Table<'a> {
        Table {
            name,
            cases: 0,
            differing: 0,
            text: String::new(alloc),
            has_text: false,
        }
    }

    /// Takes a line of a table: what is to be shown of the lines before it, a heading, a blank
    /// line between two cases, or a line of the next case.
    pub(crate) fn take<S: Subject, O: Sink>(
        &mut self,
        alloc: Global,
        subject: &S,
        line: &str,
        out: &mut O,
    ) -> Result<(), Failure> {
        if let Some(wanted) = line.strip_prefix("-->") {
            let wanted = wanted.strip_prefix(' ').unwrap_or(wanted);
            self.compare(alloc, subject, wanted, out)?;
            self.text = String::new(alloc);
            self.has_text = false;
        } else if self.has_text || !(line.is_empty() || line.starts_with("== ")) {
            self.add(line)?;
        }
        Ok(())
    }

    fn add(&mut self, line: &str) -> Result<(), AllocError> {
        if self.has_text {
            self.text.push('\n')?;
        }
        self.has_text = true;
        self.text.push_str(line)
    }

    fn compare<S: Subject, O: Sink>(
        &mut self,
        alloc: Global,
        subject: &S,
        wanted: &str,
        out: &mut O,
    ) -> Result<(), Failure> {
        let text = expanded(alloc, self.text.as_str())?;
        if text.len() > TEXT_LIMIT {
            return Err(Failure::Table);
        }
        let found = subject.shown(alloc, self.name, text.as_str())?;
        self.cases = self.cases.saturating_add(1);
        if found.as_str() != expanded(alloc, wanted)?.as_str() {
            self.differing = self.differing.saturating_add(1);
            put_line(out, "", self.text.as_str())?;
            put_line(out, "wanted: ", wanted)?;
            put_line(out, "found:  ", found.as_str())?;
        }
        Ok(())
    }
}

fn put_line<O: Sink>(out: &mut O, word: &str, text: &str) -> Result<(), WriteFail> {
    out.put(word.as_bytes())?;
    out.put(text.as_bytes())?;
    out.put(b"\n".as_slice())
}
