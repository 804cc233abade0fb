//! Bytes from a reader and to a writer, by as many calls as it takes.

ghost use Rattle.std.specs.Prelude.{◌≡◌, ◌↔◌, OnOk, OnErr};
ghost use Rattle.std.specs.Io.{StartsWith};
ghost use Rattle.std.specs.Io.KnownBytes.{Appends};
ghost use Rattle.std.specs.IoError.{error_kind};
ghost use Rattle.dy_io.specs.Host.{ReadsFront};
ghost use Rattle.dy_io.specs.Sinks.{AppendsFront};

use crate::fail::{ReadFail, WriteFail};
use std::io::{self, ErrorKind, Read, Write};

/// How many bytes one call reads at most.
const PIECE: usize = 8192;

/// What an error of the system means for a read: want of memory, or a failure.
pub fn read_fail(error: &io::Error) -> ReadFail
    ensures { (result ≡ ReadFail.Memory) ↔ (error_kind error.now ≡ ErrorKind.OutOfMemory) }
{
    if error.kind() == ErrorKind::OutOfMemory {
        ReadFail::Memory
    } else {
        ReadFail::Failed
    }
}

/// Reads the first `most` bytes, or all where there are fewer, behind what `into` holds. After an
/// error, which comes where a call fails or memory does not suffice, `into` is as before.
pub fn read_front<R: Read>(reader: &mut R, most: u64, into: &mut Vec<u8>) -> Result<(), ReadFail>
    ensures front { OnOk result
        (ReadsFront (R.remaining reader.old) most into.old.items into.new.items) }
    ensures refused { OnErr result (into.new.items ≡ into.old.items) }
{
    let before = into.len();
    let answer = read_pieces(reader, most, into);
    if answer.is_err() {
        into.truncate(before);
    }
    answer
}

// The same, but after an error `into` may have more behind what it held.
fn read_pieces<R: Read>(reader: &mut R, most: u64, into: &mut Vec<u8>) -> Result<(), ReadFail>
    ensures front { OnOk result
        (ReadsFront (R.remaining reader.old) most into.old.items into.new.items) }
    ensures behind { StartsWith into.new.items into.old.items }
{
    let mut piece = [0u8; PIECE];
    let mut left = most;
    while left > 0 {
        let room = left.min(PIECE as u64) as usize;
        match reader.read(&mut piece[..room]) {
            Err(error) => return Err(read_fail(&error)),
            Ok(0) => return Ok(()),
            Ok(count) => {
                if into.extend_from_slice(&piece[..count]).is_err() {
                    return Err(ReadFail::Memory);
                }
                left -= count as u64;
            }
        }
    }
    Ok(())
}

/// Writes all these bytes, and flushes. A call that fails, or that takes nothing where bytes are
/// left, ends it with `Failed`, the only error.
pub fn write_whole<W: Write>(writer: &mut W, bytes: &[u8]) -> Result<(), WriteFail>
    ensures written { OnOk result
        (Appends (W.contents writer.old) (W.contents writer.new) bytes.now) }
    ensures front { OnErr result
        (AppendsFront (W.contents writer.old) (W.contents writer.new) bytes.now) }
    ensures failed { OnErr result (result ≡ Err WriteFail.Failed) }
{
    let mut taken = 0;
    while taken < bytes.len() {
        match writer.write(&bytes[taken..]) {
            Ok(0) | Err(_) => return Err(WriteFail::Failed),
            Ok(count) => taken += count,
        }
    }
    match writer.flush() {
        Ok(()) => Ok(()),
        Err(_) => Err(WriteFail::Failed),
    }
}
