//! The lines of a LID file.

ghost use Rattle.std.specs.Prelude.{◌≡◌, ◌≤◌, ◌<◌, ◌∷◌, [], length, true, codes};
ghost use Rattle.std.specs.List.{prefix_len};
ghost use Rattle.dy_base.specs.Folding.{folded_byte};
ghost use Rattle.dy_pieces.specs.Bytes.{in_line};
ghost use Rattle.dy_pieces.specs.Words.{begins, is_same};
ghost use Rattle.dy_lexer.specs.Headers as headers;
ghost use Rattle.dy_lid_files.specs.Names as names;

use dy_pieces::is_blank;

fn line_len(text: &[u8]) -> usize
    ensures len { result ≡ prefix_len in_line text.now }
    ensures within { result ≤ length text.now }
{
    text.iter().take_while(|byte| **byte != b'\n').count()
}

fn is_return(bytes: &[u8]) -> bool
    ensures { result ≡ is_same (13 ∷ []) bytes.now }
{
    match bytes {
        [b'\r'] => true,
        _ => false,
    }
}

fn ends_return(line: &[u8]) -> bool
    ensures value { result ≡ headers.ends_return line.now }
    ensures some { result ≡ true → 0 < length line.now }
{
    is_return(&line[line.len().saturating_sub(1)..])
}

fn without_return(line: &[u8]) -> &[u8]
    ensures { result.now ≡ headers.without_return line.now }
{
    if ends_return(line) {
        &line[..line.len() - 1]
    } else {
        line
    }
}

/// The line at the front without its end.
pub(crate) fn line_of(text: &[u8]) -> &[u8]
    ensures { result.now ≡ headers.line_of text.now }
{
    let n = line_len(text);
    if n < text.len() {
        without_return(&text[..n])
    } else {
        text
    }
}

/// The length of the line at the front with its end.
pub(crate) fn line_size(text: &[u8]) -> usize
    requires { 0 < length text.now }
    ensures size { result ≡ headers.line_size text.now }
    ensures some { 0 < result }
    ensures within { result ≤ length text.now }
{
    let n = line_len(text);
    if n < text.len() { n + 1 } else { n }
}

fn is_indent(byte: u8) -> bool
    ensures { result ≡ headers.is_indent byte }
{
    match byte {
        b' ' | b'\t' => true,
        _ => false,
    }
}

/// Whether the line ends the header: spaces and tabs alone.
pub(crate) fn is_empty_line(line: &[u8]) -> bool
    ensures { result ≡ headers.is_empty_line line.now }
{
    for byte in line {
        if !is_indent(*byte) {
            return false;
        }
    }
    true
}

/// Whether the line continues the value before it.
pub(crate) fn is_continued(line: &[u8]) -> bool
    ensures { result ≡ headers.is_continued line.now }
{
    match line {
        [byte, ..] => is_indent(*byte),
        [] => false,
    }
}

fn folded_byte(byte: u8) -> u8
    ensures { result ≡ folded_byte byte }
{
    byte.to_ascii_lowercase()
}

/// Whether a line begins with a word, in either case.
fn begins(word: &[u8], line: &[u8]) -> bool
    ensures value { result ≡ begins word.now line.now }
    ensures within { result ≡ true → length word.now ≤ length line.now }
{
    for (i, letter) in word.iter().enumerate() {
        if line.len() <= i {
            return false;
        }
        if folded_byte(line[i]) != *letter {
            return false;
        }
    }
    true
}

/// Whether the line begins the value of `files`.
pub(crate) fn begins_files(line: &[u8]) -> bool
    ensures value { result ≡ names.begins_files line.now }
    ensures within { result ≡ true → 6 ≤ length line.now }
{
    begins(b"files:", line)
}

/// Whether a line of the value of `files` names a file.
pub(crate) fn is_name(line: &[u8]) -> bool
    ensures { result ≡ names.is_name line.now }
{
    line.iter().any(|byte| !is_blank(*byte))
}
