//! The names of a LID file, counted.

ghost use Rattle.std.specs.Prelude.{◌≡◌, ℕ, ◌≤◌, List, length};
ghost use Rattle.dy_lexer.specs.Headers.{Line, Lines};
ghost use Rattle.dy_lid_files.specs.Names.{names_in, continuing, NamesFiles};

use crate::lines::{begins_files, is_continued, is_empty_line, is_name, line_of, line_size};

/// How many files the lines at the front name that continue the value of `files`.
fn continuing_names(text: &[u8]) -> usize
    ensures names { (at : ℕ) (lines : List Line) (end : ℕ) (body : List ℕ)
        → Lines at text.now lines end body → result ≡ names_in (continuing lines) }
    ensures within { result ≤ length text.now }
{
    let mut rest = text;
    let mut count = 0;
    while 0 < rest.len() {
        let line = line_of(rest);
        if is_empty_line(line) {
            return count;
        }
        if !is_continued(line) {
            return count;
        }
        if is_name(line) {
            count += 1;
        }
        let (_, after) = rest.split_at(line_size(rest));
        rest = after;
    }
    count
}

/// How many files a LID file names: the lines of the value of its first `files` that are not all
/// blanks (own). They count whether or not the LID file is in form, and so does a line that is no
/// name of a file.
pub fn named_files(text: &[u8]) -> usize
    ensures { NamesFiles text.now result }
{
    let mut rest = text;
    while 0 < rest.len() {
        let line = line_of(rest);
        if is_empty_line(line) {
            return 0;
        }
        let (_, after) = rest.split_at(line_size(rest));
        if begins_files(line) {
            let (_, value) = line.split_at(6);
            let more = continuing_names(after);
            return if is_name(value) { 1 + more } else { more };
        }
        rest = after;
    }
    0
}
