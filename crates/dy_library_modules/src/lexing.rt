//! The texts of a library's files, lexed.

ghost use Rattle.std.specs.Prelude.{◌≡◌, ◌++◌, ◌<◌, ◌^◌, ◌||◌, not, [], ◌∷◌, List, Some, length, IfOk};
ghost use Rattle.dy_base.specs.declared.fault.Fault.{Fault};
ghost use Rattle.dy_library_modules.specs.Texts as spec;
ghost use Rattle.dy_library_modules.specs.Texts.{AreShort, AreFew, Lexes, AreLexed, first_of};
ghost use Rattle.dy_library_modules.specs.Texts.{AnswersLexed, AnswersTexts};

use dy_base::{Fault, Items, Kind, Refusal, Text};
use dy_lexer::{Source, lex};
use std::alloc::{AllocError, Global};

/// What a file is lexed as.
#[derive(Debug, Drop)]
pub enum Lexed {
    Read(Source),
    /// Its first fault.
    Faulty(Fault),
}

/// What the file of this number is lexed as.
fn lex_file(alloc: Global, file: u32, bytes: &[u8]) -> Result<Lexed, AllocError>
    requires { length bytes.now < 2 ^ 32 }
    ensures { IfOk result (λ found. Lexes file bytes.now found) }
{
    match lex(alloc, file, bytes) {
        Ok(source) => Ok(Lexed::Read(source)),
        Err(Refusal::Fault(fault)) => Ok(Lexed::Faulty(fault)),
        Err(Refusal::Memory) => Err(AllocError),
    }
}

/// What each file is lexed as.
fn lex_all(alloc: Global, texts: &[Text]) -> Result<Vec<Lexed>, AllocError>
    requires short { AreShort texts.now }
    requires few { AreFew texts.now }
    ensures { IfOk result (λ lexed. AreLexed 0 texts.now lexed.items) }
{
    let mut lexed = Vec::new(alloc);
    for (number, text) in texts.iter().enumerate() {
        lexed.push(lex_file(alloc, number as u32, text.bytes())?)?;
    }
    Ok(lexed)
}

/// Whether a fault is one of a header.
fn is_header(fault: &Fault) -> bool
    ensures { result ≡ spec.is_header fault.now }
{
    fault.kind == Kind::BadHeader
}

/// Whether a fault is told in front of one behind it.
fn is_told(first: &Fault, behind: &Fault) -> bool
    ensures { result ≡ (spec.is_header first.now || not (spec.is_header behind.now)) }
{
    is_header(first) || !is_header(behind)
}

/// The first of some faults and of one more behind them.
fn first_with(first: Option<Fault>, fault: Fault) -> Fault
    ensures { (faults : List Fault) → first ≡ first_of faults
        → Some result ≡ first_of (faults ++ fault ∷ []) }
{
    match first {
        Some(first) => {
            if is_told(&first, &fault) {
                first
            } else {
                fault
            }
        }
        None => fault,
    }
}

/// The files that are read, or the first fault.
fn sources_of(alloc: Global, lexed: Vec<Lexed>) -> Result<Items<Source>, Refusal>
    ensures { AnswersLexed lexed.items result }
{
    let mut sources = Items::new(alloc);
    let mut first = None;
    for found in lexed {
        match found {
            Lexed::Read(source) => sources.push(source)?,
            Lexed::Faulty(fault) => first = Some(first_with(first, fault)),
        }
    }
    match first {
        Some(fault) => Err(Refusal::Fault(fault)),
        None => Ok(sources),
    }
}

/// The source files of a library, whose texts these are in their order, or the fault that is told
/// of them (DRM 2, "Lexical syntax" and "Dylan interchange format"; the order of faults is own). A
/// place has the number of its file among them.
///
/// `BadHeader` of any file comes before all other faults: that of the first such file. Else the
/// fault of the first file that has one is told. Or the refusal says that memory did not suffice.
pub fn lex_files(alloc: Global, texts: &[Text]) -> Result<Items<Source>, Refusal>
    requires short { AreShort texts.now }
    requires few { AreFew texts.now }
    ensures { AnswersTexts texts.now result }
{
    let lexed = lex_all(alloc, texts)?;
    sources_of(alloc, lexed)
}
