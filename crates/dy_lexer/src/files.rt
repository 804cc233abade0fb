//! Reading whole files.

ghost use Rattle.std.specs.Prelude.{◌≡◌, ◌+◌, ◌<◌, ◌^◌, length, ℕ, IfOk, IsTrue};
ghost use Rattle.dy_base.specs.declared.fault.Fault.{Fault};
ghost use Rattle.dy_lexer.specs.declared.source.Source.{Source};
ghost use Rattle.dy_lexer.specs.declared.source.Lid.{Lid};
ghost use Rattle.dy_lexer.specs.Tokens.{Gives};
ghost use Rattle.dy_lexer.specs.Headers.{are_printable};
ghost use Rattle.dy_lexer.specs.Sources as sources;
ghost use Rattle.dy_lexer.specs.Sources.{wanted, placed, lid_from, lid_of, source_of, IsSource};
ghost use Rattle.dy_lexer.specs.Sources.{IsFirst, IsReading, IsLid, IsLidFault, IsLidReading};
ghost use Rattle.dy_lexer.specs.Sources.{Reads, Refuses};

use crate::header::{Head, header, trimmed};
use crate::reading::tokens_of;
use crate::source::{Lid, Source};
use crate::token::fault;
use dy_base::{Items, Kind, Name, Place, Refusal, fold};
use std::alloc::Global;

fn header_fault(alloc: Global, file: u32, offset: u32) -> Refusal
    ensures { result ≡ Refusal.Fault (sources.header_fault file offset) }
{
    fault(alloc, Kind::BadHeader, Place { file, offset })
}

fn module_of(alloc: Global, file: u32, head: Head) -> Result<Name, Refusal>
    ensures { Gives (λ name. name) result (placed file (wanted head.name head.fault)) }
{
    let Head {
        name,
        files: _,
        within: _,
        fault,
    } = head;
    match name {
        None => Err(header_fault(alloc, file, 0)),
        Some(value) => match fault {
            Some(at) => Err(header_fault(alloc, file, at)),
            None => Ok(fold(alloc, trimmed(value.bytes()))?),
        },
    }
}

fn lid_with(alloc: Global, head: Head) -> Result<Lid, Refusal>
    ensures { Gives (λ lid. lid) result (placed 0 (lid_from head.name head.files head.fault)) }
{
    let Head {
        name,
        files,
        within: _,
        fault,
    } = head;
    match name {
        None => Err(header_fault(alloc, 0, 0)),
        Some(value) => match files {
            None => Err(header_fault(alloc, 0, 0)),
            Some(files) => match fault {
                Some(at) => Err(header_fault(alloc, 0, at)),
                None => Ok(Lid {
                    library: fold(alloc, trimmed(value.bytes()))?,
                    files,
                }),
            },
        },
    }
}

fn read_source(alloc: Global, file: u32, bytes: &[u8]) -> Result<Source, Refusal>
    requires { length bytes.now < 2 ^ 32 }
    ensures { Gives (λ source. source) result (source_of file bytes.now) }
{
    let (head, at) = header(alloc, false, bytes)?;
    let module = module_of(alloc, file, head)?;
    let tokens = tokens_of(alloc, file, at, &bytes[at as usize..])?;
    Ok(Source {
        module,
        tokens: Items::from_vec(tokens),
    })
}

/// The module and the tokens of a source file (DRM 2, "Lexical syntax"; headers, DRM appendix
/// "Dylan interchange format"). `file` is the file's number, which each place has beside an offset
/// in bytes.
///
/// A refusal has the first fault: that of the header, `BadHeader`, else the earliest one in the
/// text after it: `BadByte` where nothing begins, `OpenComment` and `OpenString` where something is
/// not closed, `BadLiteral` where a literal has none of its forms, `WideInteger` where an integer
/// is above
/// 9223372036854775807. Or it says that memory did not suffice.
pub fn lex(alloc: Global, file: u32, bytes: &[u8]) -> Result<Source, Refusal>
    requires { length bytes.now < 2 ^ 32 }
    // What is read is so cut into pieces, and a fault is the first one.
    ensures reading { IsReading file bytes.now result }
    // What has tokens is read, to these.
    ensures tokens { (source : Source) → IsSource file bytes.now source → Reads result source }
    // What has a fault is refused, with this one.
    ensures fault { (f : Fault) → IsFirst file bytes.now f → Refuses result f }
{
    read_source(alloc, file, bytes)
}

fn read_lid_file(alloc: Global, bytes: &[u8]) -> Result<Lid, Refusal>
    requires { length bytes.now < 2 ^ 32 }
    ensures { Gives (λ lid. lid) result (lid_of bytes.now) }
{
    let (head, _) = header(alloc, true, bytes)?;
    lid_with(alloc, head)
}

/// The library and the files of a LID file (own; its lines are those of a header). What follows an
/// empty line is ignored.
///
/// A refusal has the first fault, a `BadHeader` whose place has the file number 0: at offset 0
/// where `library` or `files` is missing, else at the first line that is no header line, has one of
/// these a second time, or has a file name with a byte outside 32 to 126. Or it says that memory
/// did not suffice.
pub fn read_lid(alloc: Global, bytes: &[u8]) -> Result<Lid, Refusal>
    requires { length bytes.now < 2 ^ 32 }
    // What is read is what the header says, and a fault is the first one.
    ensures reading { IsLidReading bytes.now result }
    // What says this is read.
    ensures lid { (lid : Lid) → IsLid bytes.now lid → Reads result lid }
    // What has a fault is refused, with this one.
    ensures fault { (f : Fault) → IsLidFault bytes.now f → Refuses result f }
    // Each file that is read from it has a name of printable bytes of ASCII.
    ensures names { IfOk result (λ lid. IsTrue (are_printable lid.files)) }
{
    read_lid_file(alloc, bytes)
}
