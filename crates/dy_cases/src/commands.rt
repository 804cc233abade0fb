//! Commands, and what they come to.

use crate::layout::command_of;
use dy_build::run_words;
use dy_io::{MemFiles, MemSink};
use std::alloc::{AllocError, Global};

/// Words, the files that they find, and which call of the output and of the error output fails,
/// from 1 on, or 0 where none does.
#[derive(Drop)]
pub(crate) struct Command {
    pub(crate) words: Vec<String>,
    pub(crate) files: MemFiles,
    pub(crate) failing: (u64, u64),
}

/// What a command comes to. A character of a text stands for the byte of its number.
#[derive(Drop)]
struct End {
    status: u8,
    out: String,
    err: String,
}

fn text_of(alloc: Global, bytes: &[u8]) -> Result<String, AllocError> {
    let mut text = String::new(alloc);
    for byte in bytes {
        text.push(char::from(*byte))?;
    }
    Ok(text)
}

fn run(alloc: Global, command: Command) -> Result<End, AllocError> {
    let Command {
        words,
        mut files,
        failing,
    } = command;
    let (mut out, mut err) = (MemSink::new(alloc), MemSink::new(alloc));
    out.fail_at(failing.0)?;
    err.fail_at(failing.1)?;
    let status = run_words(alloc, &words, &mut files, &mut out, &mut err);
    Ok(End {
        status,
        out: text_of(alloc, out.bytes())?,
        err: text_of(alloc, err.bytes())?,
    })
}

/// What a command comes to: the status, the output and the error output.
pub(crate) fn shown_command(alloc: Global, text: &str) -> Result<String, AllocError> {
    let End { status, out, err } = run(alloc, command_of(alloc, text)?)?;
    let mut shown = String::new(alloc);
    write!(shown, "{status} {out:?} {err:?}").map_err(|_| AllocError)?;
    Ok(shown)
}
