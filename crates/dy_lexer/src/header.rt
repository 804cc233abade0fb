//! Headers of source files and of LID files.

ghost use Rattle.std.specs.Prelude.{◌≡◌, ℕ, ◌+◌, ◌-◌, ◌≤◌, ◌<◌, ◌^◌, ◌++◌, ◌∷◌, [], length, take};
ghost use Rattle.std.specs.Prelude.{drop, IfOk, IfSome, true, codes};
ghost use Rattle.std.specs.List.{prefix_len};
ghost use Rattle.dy_pieces.specs.Bytes.{is_blank, in_line};
ghost use Rattle.dy_pieces.specs.Words.{is_same};
ghost use Rattle.dy_lexer.specs.Headers as headers;
ghost use Rattle.dy_lexer.specs.Headers.{header_from, opened};

use dy_base::{Items, Text};
use dy_pieces::{folded, is_blank, is_digit, is_letter};
use std::alloc::{AllocError, Global};

/// Which key a header line has.
#[derive(Clone, Copy, Debug, PartialEq, Eq)]
pub enum Key {
    Module,
    Library,
    Files,
    /// A key that is not wanted.
    Other,
}

/// Which value the next line may continue.
#[derive(Clone, Copy, Debug, PartialEq, Eq)]
pub enum Within {
    /// None, since no key came yet.
    Nothing,
    Name,
    Files,
    /// One that is not wanted.
    Other,
}

/// What has been read of a header.
#[derive(Debug, Drop)]
pub struct Head {
    /// The value of `module` or `library`.
    pub name: Option<Text>,
    /// The file names in the value of `files`.
    pub files: Option<Items<Text>>,
    pub within: Within,
    /// The first line with a fault.
    pub fault: Option<u32>,
}

fn line_len(bytes: &[u8]) -> usize
    ensures len { result ≡ prefix_len in_line bytes.now }
    ensures within { result ≤ length bytes.now }
{
    bytes.iter().take_while(|b| **b != 10).count()
}

fn is_return(bytes: &[u8]) -> bool
    ensures { result ≡ is_same (13 ∷ []) bytes.now }
{
    match bytes {
        [13] => true,
        _ => false,
    }
}

fn ends_return(line: &[u8]) -> bool
    ensures value { result ≡ headers.ends_return line.now }
    ensures some { result ≡ true → 0 < length line.now }
{
    is_return(&line[line.len().saturating_sub(1)..])
}

fn without_return(line: &[u8]) -> &[u8]
    ensures { result.now ≡ headers.without_return line.now }
{
    if ends_return(line) {
        &line[..line.len() - 1]
    } else {
        line
    }
}

/// The line at the front without its end.
fn line_of(bytes: &[u8]) -> &[u8]
    ensures { result.now ≡ headers.line_of bytes.now }
{
    let n = line_len(bytes);
    if n < bytes.len() {
        without_return(&bytes[..n])
    } else {
        bytes
    }
}

/// The length of the line at the front with its end.
fn line_size(bytes: &[u8]) -> usize
    requires { 0 < length bytes.now }
    ensures size { result ≡ headers.line_size bytes.now }
    ensures some { 0 < result }
    ensures within { result ≤ length bytes.now }
{
    let n = line_len(bytes);
    if n < bytes.len() { n + 1 } else { n }
}

fn is_indent(b: u8) -> bool
    ensures { result ≡ headers.is_indent b }
{
    match b {
        b' ' | 9 => true,
        _ => false,
    }
}

fn is_empty_line(line: &[u8]) -> bool
    ensures { result ≡ headers.is_empty_line line.now }
{
    for b in line {
        if !is_indent(*b) {
            return false;
        }
    }
    true
}

fn is_continued(line: &[u8]) -> bool
    ensures { result ≡ headers.is_continued line.now }
{
    match line {
        [b, ..] => is_indent(*b),
        [] => false,
    }
}

fn in_key(b: u8) -> bool
    ensures { result ≡ headers.in_key b }
{
    is_letter(b) || is_digit(b) || b == b'-'
}

fn key_run(bytes: &[u8]) -> usize
    ensures len { result ≡ prefix_len headers.in_key bytes.now }
    ensures within { result ≤ length bytes.now }
{
    bytes.iter().take_while(|b| in_key(**b)).count()
}

fn begins_colon(bytes: &[u8]) -> bool
    ensures colon { result ≡ headers.begins_colon bytes.now }
    ensures some { result ≡ true → 0 < length bytes.now }
{
    matches!(bytes, [b':', ..])
}

/// The length of the key before the line's first colon.
fn key_len(line: &[u8]) -> Option<usize>
    ensures len { result ≡ headers.key_len line.now }
    ensures within { IfSome result (λ n. n < length line.now) }
{
    match line {
        [] => None,
        [b, rest @ ..] => {
            let n = key_run(rest);
            if is_letter(*b) {
                if begins_colon(&rest[n..]) {
                    Some(1 + n)
                } else {
                    None
                }
            } else {
                None
            }
        }
    }
}

fn blank_run(bytes: &[u8]) -> usize
    ensures len { result ≡ prefix_len is_blank bytes.now }
    ensures within { result ≤ length bytes.now }
{
    bytes.iter().take_while(|b| is_blank(**b)).count()
}

fn kept(bytes: &[u8]) -> usize
    ensures end { result ≡ headers.kept 0 0 bytes.now }
    ensures within { result ≤ length bytes.now }
{
    let mut end = 0;
    for (i, b) in bytes.iter().enumerate() {
        if !is_blank(*b) {
            end = i + 1;
        }
    }
    end
}

/// The bytes without the blanks at both ends.
pub(crate) fn trimmed(bytes: &[u8]) -> &[u8]
    ensures { result.now ≡ headers.trimmed bytes.now }
{
    let rest = &bytes[blank_run(bytes)..];
    &rest[..kept(rest)]
}

fn is_printable(bytes: &[u8]) -> bool
    ensures { result ≡ headers.is_printable bytes.now }
{
    for b in bytes {
        match *b {
            32..=126 => {}
            _ => return false,
        }
    }
    true
}

fn is_dylan(bytes: &[u8]) -> bool
    ensures { result ≡ is_same (codes ".dylan") bytes.now }
{
    match bytes {
        [b'.', b'd', b'y', b'l', b'a', b'n'] => true,
        _ => false,
    }
}

fn ends_dylan(bytes: &[u8]) -> bool
    ensures { result ≡ headers.ends_dylan bytes.now }
{
    is_dylan(&bytes[bytes.len().saturating_sub(6)..])
}

/// The name of a source file, whose ending may be left out.
fn file_name(alloc: Global, bytes: &[u8]) -> Result<Text, AllocError>
    ensures { IfOk result (λ text. text ≡ headers.file_name bytes.now) }
{
    let mut name = bytes.to_vec(alloc)?;
    if !ends_dylan(bytes) {
        name.extend_from_slice(b".dylan")?;
    }
    Ok(Text::from_vec(name))
}

fn is_module(key: &[u8]) -> bool
    ensures { result ≡ is_same (codes "module") key.now }
{
    match key {
        b"module" => true,
        _ => false,
    }
}

fn is_library(key: &[u8]) -> bool
    ensures { result ≡ is_same (codes "library") key.now }
{
    match key {
        b"library" => true,
        _ => false,
    }
}

fn is_files(key: &[u8]) -> bool
    ensures { result ≡ is_same (codes "files") key.now }
{
    match key {
        b"files" => true,
        _ => false,
    }
}

/// Which of the wanted keys this is, in a LID file or in a source file.
fn key_of(alloc: Global, lid: bool, key: &[u8]) -> Result<Key, AllocError>
    ensures { IfOk result (λ key_. key_ ≡ headers.key_of lid key.now) }
{
    let key = folded(alloc, key)?;
    Ok(known_key(lid, key.bytes()))
}

fn known_key(lid: bool, key: &[u8]) -> Key
    ensures { result ≡ headers.known_key lid key.now }
{
    if lid {
        if is_library(key) {
            Key::Library
        } else if is_files(key) {
            Key::Files
        } else {
            Key::Other
        }
    } else if is_module(key) {
        Key::Module
    } else {
        Key::Other
    }
}

fn first_fault(fault: Option<u32>, at: u32) -> Option<u32>
    ensures { result ≡ headers.first_fault fault at }
{
    match fault {
        None => Some(at),
        Some(earlier) => Some(earlier),
    }
}

fn faulted(head: Head, at: u32) -> Head
    ensures { result ≡ headers.faulted head at }
{
    Head {
        name: head.name,
        files: head.files,
        within: Within::Other,
        fault: first_fault(head.fault, at),
    }
}

/// A line of the value of `files`, trimmed, after the names before it.
fn named_file(
    alloc: Global,
    head: Head,
    at: u32,
    names: Items<Text>,
    name: &[u8],
) -> Result<Head, AllocError>
    ensures { IfOk result (λ next. next ≡ headers.named_file head at names name.now) }
{
    let mut names = names;
    let mut fault = head.fault;
    if !name.is_empty() {
        if is_printable(name) {
            names.push(file_name(alloc, name)?)?;
        } else {
            fault = first_fault(fault, at);
        }
    }
    Ok(Head {
        name: head.name,
        files: Some(names),
        within: Within::Files,
        fault,
    })
}

fn begun_name(alloc: Global, head: Head, at: u32, value: &[u8]) -> Result<Head, AllocError>
    ensures { IfOk result (λ next. next ≡ headers.begun_name head at head.name value.now) }
{
    let Head {
        name,
        files,
        within: _,
        fault,
    } = head;
    let doubled = first_fault(fault, at);
    match name {
        None => Ok(Head {
            name: Some(Text::of(alloc, value)?),
            files,
            within: Within::Name,
            fault,
        }),
        Some(name) => Ok(Head {
            name: Some(name),
            files,
            within: Within::Other,
            fault: doubled,
        }),
    }
}

fn begun_files(alloc: Global, head: Head, at: u32, value: &[u8]) -> Result<Head, AllocError>
    ensures { IfOk result (λ next. next ≡ headers.begun_files head at head.files value.now) }
{
    let Head {
        name,
        files,
        within,
        fault,
    } = head;
    let repeated = first_fault(fault, at);
    match files {
        None => {
            let rest = Head {
                name,
                files: None,
                within,
                fault,
            };
            named_file(alloc, rest, at, Items::new(alloc), trimmed(value))
        }
        Some(names) => Ok(Head {
            name,
            files: Some(names),
            within: Within::Other,
            fault: repeated,
        }),
    }
}

fn keyed(alloc: Global, key: Key, head: Head, at: u32, value: &[u8]) -> Result<Head, AllocError>
    ensures { IfOk result (λ next. next ≡ headers.keyed key head at value.now) }
{
    match key {
        Key::Module => begun_name(alloc, head, at, value),
        Key::Library => begun_name(alloc, head, at, value),
        Key::Files => begun_files(alloc, head, at, value),
        Key::Other => Ok(Head {
            name: head.name,
            files: head.files,
            within: Within::Other,
            fault: head.fault,
        }),
    }
}

fn longer(name: Text, line: &[u8]) -> Result<Text, AllocError>
    ensures { IfOk result (λ text. text ≡ name ++ 10 ∷ line.now) }
{
    let mut value = name.into_vec();
    value.push(10)?;
    value.extend_from_slice(line)?;
    Ok(Text::from_vec(value))
}

fn longer_name(head: Head, line: &[u8]) -> Result<Head, AllocError>
    ensures { IfOk result (λ next. next ≡ headers.longer_name head line.now) }
{
    let Head {
        name,
        files,
        within,
        fault,
    } = head;
    match name {
        None => Ok(Head {
            name: None,
            files,
            within,
            fault,
        }),
        Some(name) => Ok(Head {
            name: Some(longer(name, line)?),
            files,
            within,
            fault,
        }),
    }
}

fn more_files(alloc: Global, head: Head, at: u32, line: &[u8]) -> Result<Head, AllocError>
    ensures { IfOk result (λ next. next ≡ headers.more_files head at head.files line.now) }
{
    let Head {
        name,
        files,
        within,
        fault,
    } = head;
    match files {
        None => Ok(Head {
            name,
            files: None,
            within,
            fault,
        }),
        Some(names) => {
            let rest = Head {
                name,
                files: None,
                within,
                fault,
            };
            named_file(alloc, rest, at, names, trimmed(line))
        }
    }
}

fn continued(alloc: Global, head: Head, at: u32, line: &[u8]) -> Result<Head, AllocError>
    ensures { IfOk result (λ next. next ≡ headers.continued head.within head at line.now) }
{
    match head.within {
        Within::Nothing => Ok(faulted(head, at)),
        Within::Name => longer_name(head, line),
        Within::Files => more_files(alloc, head, at, line),
        Within::Other => Ok(head),
    }
}

fn line_read(alloc: Global, lid: bool, head: Head, at: u32, line: &[u8]) -> Result<Head, AllocError>
    ensures { IfOk result (λ next. next ≡ headers.line_read lid head at line.now) }
{
    if is_continued(line) {
        return continued(alloc, head, at, line);
    }
    match key_len(line) {
        None => Ok(faulted(head, at)),
        Some(n) => {
            let key = key_of(alloc, lid, &line[..n])?;
            keyed(alloc, key, head, at, &line[n + 1..])
        }
    }
}

/// The header, and how many bytes it has with the line that ends it.
pub(crate) fn header(alloc: Global, lid: bool, text: &[u8]) -> Result<(Head, u32), AllocError>
    requires { length text.now < 2 ^ 32 }
    ensures exact { (n : ℕ) → length text.now ≤ n
        → IfOk result (λ r. opened r.0 r.1 (drop r.1 text.now)
        ≡ header_from lid n headers.start 0 text.now) }
    ensures within { IfOk result (λ r. r.1 ≤ length text.now) }
{
    let mut head = Head {
        name: None,
        files: None,
        within: Within::Nothing,
        fault: None,
    };
    let mut at: u32 = 0;
    let mut rest = text;
    while 0 < rest.len() {
        let line = line_of(rest);
        let size = line_size(rest);
        if is_empty_line(line) {
            return Ok((head, at + size as u32));
        }
        head = line_read(alloc, lid, head, at, line)?;
        let (_, after) = rest.split_at(size);
        rest = after;
        at += size as u32;
    }
    Ok((head, at))
}
