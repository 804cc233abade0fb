//! The sources of a library, read and judged.

ghost use Rattle.std.specs.Prelude.{◌≡◌, ◌≤◌, IfOk, IfErr, Some, IsTrue, length, map, false};
ghost use Rattle.std.specs.Prelude.{slice_get};
ghost use Rattle.std.specs.Option.{option_map};
ghost use Rattle.dy_base.specs.Folding.{folded};
ghost use Rattle.dy_io.specs.Causes.{Rose};
ghost use Rattle.dy_io.specs.Files.{FileMap};
ghost use Rattle.dy_sources.specs.Layout.{file_limit, files_limit, source_name};
ghost use Rattle.dy_lexer.specs.Headers.{are_printable};
ghost use Rattle.dy_lexer.specs.Sources.{IsLid};
ghost use Rattle.dy_lexer.specs.declared.source.Lid.{Lid};
ghost use Rattle.dy_sources.specs.Refusals.{begin_of, long_file, many_files, many_libraries};
ghost use Rattle.dy_libraries.specs.Commands.{AreLibraries};
ghost use Rattle.dy_sources.specs.Verdicts.{source_of, source_at, position_of, position_in_lid};
ghost use Rattle.dy_sources.specs.Verdicts.{located, is_full, JudgesTexts, JudgesRoom};
ghost use Rattle.dy_sources.specs.Verdicts.{JudgesNames, JudgesForm, JudgesLid, IsVerdict};
ghost use Rattle.dy_sources.specs.Libraries.{IsAccepted};
ghost use Rattle.dy_sources.specs.Judged.{seen_source, IsWithin, IsRead, FilesAreRead, AreWithin};
ghost use Rattle.dy_sources.specs.Judged.{Interrupts, Fails, Misses, Judged, IsPlain, TellsName};
ghost use Rattle.dy_sources.specs.Judged.{IsSourceOf, NamesFile};
ghost use Rattle.dy_library_modules.specs.Texts.{AreShort, AreFew};

use crate::names::source_name;
use crate::refused::{Position, Refused, begin_of, position_at};
use dy_base::{Fault, Items, Name, Place, Refusal, Text};
use dy_io::{Files, Found, ReadFail};
use dy_lexer::{Lid, read_lid};
use dy_libraries::Libraries;
use dy_lid_files::named_files;
use dy_verdict::{ReadLibrary, read_sources};
use std::alloc::{AllocError, AllocFailed, Global};

/// A file has at most so many bytes.
pub(crate) const FILE_LIMIT: usize = 4_194_304;

/// A LID file names at most so many files.
const FILES_LIMIT: usize = 64;

/// A command has at most so many libraries, the two that are built in among them.
const LIBRARIES_LIMIT: usize = 66;

/// A source file.
#[derive(Debug, Drop)]
pub(crate) enum Source {
    Absent,
    TooLong,
    Text(Text),
}

/// Why there is no library.
#[derive(Debug, Drop)]
pub enum Halt {
    /// The library is refused, by its first fault.
    Refused(Refused),
    /// The file of this name could not be read.
    FileFault(Text),
    /// Memory ran out.
    Memory,
}

impl From<AllocError> for Halt {
    ghost use Rattle.std.specs.Prelude.{◌≡◌};
    ghost use Rattle.dy_sources.specs.declared.source.Halt.TheVariants.{Memory};

    ghost from_gives = { λ _ halt. halt ≡ Memory };

    fn from(_error: AllocError) -> Halt {
        Halt::Memory
    }
}

impl<T: Drop> From<AllocFailed<T>> for Halt {
    ghost use Rattle.std.specs.Prelude.{◌≡◌};
    ghost use Rattle.dy_sources.specs.declared.source.Halt.TheVariants.{Memory};

    ghost from_gives = { λ _ halt. halt ≡ Memory };

    fn from(_error: AllocFailed<T>) -> Halt {
        Halt::Memory
    }
}

/// The source of a file's bytes, of which one more than the limit was read at most.
fn source_of(bytes: Vec<u8>) -> Source
    ensures source { seen_source result ≡ source_of (Some bytes.items) }
    ensures within { IsWithin result }
{
    if bytes.len() <= FILE_LIMIT {
        Source::Text(Text::from_vec(bytes))
    } else {
        Source::TooLong
    }
}

/// Reads a file.
fn read_source<F: Files>(alloc: Global, files: &mut F, name: &str) -> Result<Source, Halt>
    ensures source { (held : FileMap) → F.contents files.old ≡ Some held
        → IfOk result (λ source. seen_source source ≡ source_at held name.now) }
    ensures within { IfOk result IsWithin }
    ensures missed { IfOk result
        (λ source. source ≡ Source.Absent → Rose (F.misses files.old) (F.misses files.new)) }
    ensures failed { IfErr result (Interrupts (F.faults files.old) (F.faults files.new)) }
    ensures named { IfErr result (TellsName (λ told. told ≡ name.now)) }
    ensures contents { F.contents files.new ≡ F.contents files.old }
    ensures misses { F.misses files.old ≤ F.misses files.new }
    ensures faults { F.faults files.old ≤ F.faults files.new }
{
    let mut bytes = Vec::new(alloc);
    match files.read(alloc, name, FILE_LIMIT as u64 + 1, &mut bytes) {
        Ok(Found::Here) => Ok(source_of(bytes)),
        Ok(Found::Absent) => Ok(Source::Absent),
        Err(ReadFail::Failed) => Err(Halt::FileFault(Text::of(alloc, name.as_bytes())?)),
        Err(ReadFail::Memory) => Err(Halt::Memory),
    }
}

/// The text of a file, or why there is none: the file is absent, or longer than a file may be.
fn read_text<F: Files>(
    alloc: Global,
    files: &mut F,
    subject: &[u8],
    name: &str,
) -> Result<Text, Halt>
    ensures read { (held : FileMap) → F.contents files.old ≡ Some held
        → IsRead subject.now name.now (source_at held name.now) result }
    ensures within { IfOk result (λ text. length text ≤ file_limit) }
    ensures missed { IfErr result (Misses (F.misses files.old) (F.misses files.new)) }
    ensures failed { IfErr result (Fails (F.faults files.old) (F.faults files.new)) }
    ensures named { IfErr result (TellsName (λ told. told ≡ name.now)) }
    ensures contents { F.contents files.new ≡ F.contents files.old }
    ensures misses { F.misses files.old ≤ F.misses files.new }
    ensures faults { F.faults files.old ≤ F.faults files.new }
{
    match read_source(alloc, files, name)? {
        Source::Absent => {
            let why = Refused::no_file(alloc, subject, name.as_bytes())?;
            Err(Halt::Refused(why))
        }
        Source::TooLong => {
            let why = long_file(alloc, subject, name.as_bytes())?;
            Err(Halt::Refused(why))
        }
        Source::Text(text) => Ok(text),
    }
}

/// A file is longer than a file may be.
fn long_file(alloc: Global, subject: &[u8], file: &[u8]) -> Result<Refused, AllocError>
    ensures { IfOk result (λ why. why ≡ long_file subject.now file.now) }
{
    Refused::over_limit(alloc, subject, file, b"file", b"4194304")
}

/// The texts of the files of these names, which lie beside the LID file, or why the first that has
/// none has none. No file behind that one is read.
fn read_texts<F: Files>(
    alloc: Global,
    files: &mut F,
    lid: &str,
    library: &[u8],
    names: &[Text],
) -> Result<Items<Text>, Halt>
    requires { IsTrue (are_printable names.now) }
    ensures read { (held : FileMap) → F.contents files.old ≡ Some held
        → FilesAreRead held library.now (map (source_name lid.now) names.now) result }
    ensures within { IfOk result (AreWithin (length names.now)) }
    ensures missed { IfErr result (Misses (F.misses files.old) (F.misses files.new)) }
    ensures failed { IfErr result (Fails (F.faults files.old) (F.faults files.new)) }
    ensures named { IfErr result (TellsName (IsSourceOf lid.now names.now)) }
    ensures contents { F.contents files.new ≡ F.contents files.old }
    ensures misses { F.misses files.old ≤ F.misses files.new }
    ensures faults { F.faults files.old ≤ F.faults files.new }
{
    let mut texts = Items::new(alloc);
    for file in names {
        let name = source_name(alloc, lid, file.bytes())?;
        texts.push(read_text(alloc, files, library, name.as_str())?)?;
    }
    Ok(texts)
}

/// Where a fault in source files stands, as a user counts. These are their names in the LID file,
/// and their texts.
fn position_of(
    alloc: Global,
    lid: &str,
    names: &[Text],
    texts: &[Text],
    place: Option<Place>,
) -> Result<Option<Position>, AllocError>
    requires { IsTrue (are_printable names.now) }
    ensures { IfOk result (λ position. position
        ≡ position_of (map (source_name lid.now) names.now) texts.now place) }
{
    let Some(place) = place else {
        return Ok(None);
    };
    let Some(file) = names.get(place.file as usize) else {
        return Ok(None);
    };
    let Some(text) = texts.get(place.file as usize) else {
        return Ok(None);
    };
    let name = source_name(alloc, lid, file.bytes())?;
    let position = position_at(alloc, name.as_bytes(), text.bytes(), place.offset)?;
    Ok(Some(position))
}

/// Where a fault in a LID file stands, as a user counts.
fn position_in_lid(
    alloc: Global,
    lid: &[u8],
    text: &[u8],
    place: Option<Place>,
) -> Result<Option<Position>, AllocError>
    ensures { IfOk result (λ position. position ≡ position_in_lid lid.now text.now place) }
{
    match place {
        Some(place) => Ok(Some(position_at(alloc, lid, text, place.offset)?)),
        None => Ok(None),
    }
}

/// A fault with its subject, and with its place as a user counts.
fn located(
    alloc: Global,
    subject: &[u8],
    position: Option<Position>,
    fault: Fault,
) -> Result<Refused, AllocError>
    ensures { IfOk result (λ why. why ≡ located subject.now position fault) }
{
    let Fault {
        kind,
        library: _,
        place: _,
        shown,
        numbers: _,
    } = fault;
    Ok(Refused {
        kind,
        subject: Text::of(alloc, subject)?,
        position,
        shown,
    })
}

/// The library whose files of these names have these texts.
fn texts_library(
    alloc: Global,
    lid: &str,
    library: &Name,
    names: &[Text],
    texts: &[Text],
    before: &Libraries,
) -> Result<ReadLibrary, Halt>
    requires printable { IsTrue (are_printable names.now) }
    requires short { AreShort texts.now }
    requires few { AreFew texts.now }
    requires lower { folded library.now ≡ library.now }
    requires before { AreLibraries before.now }
    requires room { is_full before.now ≡ false }
    ensures verdict { Judged
        (JudgesTexts before.now library.now (map (source_name lid.now) names.now) texts.now)
        result }
    ensures accepted { IfOk result (IsAccepted before.now) }
    ensures refused { IfErr result IsPlain }
{
    match read_sources(alloc, library, texts, &before.compiled) {
        Ok(read) => Ok(read),
        Err(Refusal::Fault(fault)) => {
            let position = position_of(alloc, lid, names, texts, fault.place)?;
            let why = located(alloc, library.bytes(), position, fault)?;
            Err(Halt::Refused(why))
        }
        Err(Refusal::Memory) => Err(Halt::Memory),
    }
}

/// Whether no library has room behind these.
fn is_full(before: &Libraries) -> bool
    ensures { result ≡ is_full before.now }
{
    before.rows.len() >= LIBRARIES_LIMIT
}

/// The begin of the first of the files of these names in the LID file.
fn first_place(alloc: Global, lid: &str, names: &[Text]) -> Result<Option<Position>, AllocError>
    requires { IsTrue (are_printable names.now) }
    ensures { IfOk result (λ position. position
        ≡ option_map begin_of (slice_get (map (source_name lid.now) names.now) 0)) }
{
    let Some(file) = names.first() else {
        return Ok(None);
    };
    let name = source_name(alloc, lid, file.bytes())?;
    Ok(Some(begin_of(alloc, name.as_bytes())?))
}

/// A command has no room for a library whose files have these names in the LID file.
fn many_libraries(
    alloc: Global,
    lid: &str,
    library: &[u8],
    names: &[Text],
) -> Result<Refused, AllocError>
    requires { IsTrue (are_printable names.now) }
    ensures { IfOk result (λ why. why
        ≡ many_libraries library.now (map (source_name lid.now) names.now)) }
{
    let position = first_place(alloc, lid, names)?;
    Refused::past_limit(alloc, library, position, b"libraries", b"64")
}

/// The same, if there is room for one more library.
fn room_library(
    alloc: Global,
    lid: &str,
    library: &Name,
    names: &[Text],
    texts: &[Text],
    before: &Libraries,
) -> Result<ReadLibrary, Halt>
    requires printable { IsTrue (are_printable names.now) }
    requires short { AreShort texts.now }
    requires few { AreFew texts.now }
    requires lower { folded library.now ≡ library.now }
    requires before { AreLibraries before.now }
    ensures verdict { Judged
        (JudgesRoom before.now (is_full before.now) library.now
        (map (source_name lid.now) names.now) texts.now) result }
    ensures accepted { IfOk result (IsAccepted before.now) }
    ensures refused { IfErr result IsPlain }
{
    if is_full(before) {
        let why = many_libraries(alloc, lid, library.bytes(), names)?;
        return Err(Halt::Refused(why));
    }
    texts_library(alloc, lid, library, names, texts, before)
}

/// The library of a LID file that says this.
fn found_library<F: Files>(
    alloc: Global,
    files: &mut F,
    lid: &str,
    found: &Lid,
    before: &Libraries,
) -> Result<ReadLibrary, Halt>
    requires printable { IsTrue (are_printable found.now.files) }
    requires few { length found.now.files ≤ files_limit }
    requires before { AreLibraries before.now }
    ensures verdict { (held : FileMap) → F.contents files.old ≡ Some held
        → Judged (JudgesNames before.now held lid.now found.now.library found.now.files) result }
    ensures accepted { IfOk result (IsAccepted before.now) }
    ensures missed { IfErr result (Misses (F.misses files.old) (F.misses files.new)) }
    ensures failed { IfErr result (Fails (F.faults files.old) (F.faults files.new)) }
    ensures named { IfErr result (TellsName (IsSourceOf lid.now found.now.files)) }
    ensures contents { F.contents files.new ≡ F.contents files.old }
    ensures misses { F.misses files.old ≤ F.misses files.new }
    ensures faults { F.faults files.old ≤ F.faults files.new }
{
    let names = found.files.as_slice();
    let texts = read_texts(alloc, files, lid, found.library.bytes(), names)?;
    room_library(alloc, lid, &found.library, names, texts.as_slice(), before)
}

/// The library of a LID file of this text, if it is in form.
fn form_library<F: Files>(
    alloc: Global,
    files: &mut F,
    lid: &str,
    text: &[u8],
    before: &Libraries,
) -> Result<ReadLibrary, Halt>
    requires within { length text.now ≤ file_limit }
    requires few { (found : Lid) → IsLid text.now found → length found.files ≤ files_limit }
    requires before { AreLibraries before.now }
    ensures verdict { (held : FileMap) → F.contents files.old ≡ Some held
        → Judged (JudgesForm before.now held lid.now text.now) result }
    ensures accepted { IfOk result (IsAccepted before.now) }
    ensures missed { IfErr result (Misses (F.misses files.old) (F.misses files.new)) }
    ensures failed { IfErr result (Fails (F.faults files.old) (F.faults files.new)) }
    ensures named { IfErr result
        (TellsName (λ told. (found : Lid) × IsLid text.now found
        × IsSourceOf lid.now found.files told)) }
    ensures contents { F.contents files.new ≡ F.contents files.old }
    ensures misses { F.misses files.old ≤ F.misses files.new }
    ensures faults { F.faults files.old ≤ F.faults files.new }
{
    match read_lid(alloc, text) {
        Ok(found) => found_library(alloc, files, lid, &found, before),
        Err(Refusal::Fault(fault)) => {
            let position = position_in_lid(alloc, lid.as_bytes(), text, fault.place)?;
            let why = located(alloc, lid.as_bytes(), position, fault)?;
            Err(Halt::Refused(why))
        }
        Err(Refusal::Memory) => Err(Halt::Memory),
    }
}

/// A LID file names more files than it may.
fn many_files(alloc: Global, lid: &[u8]) -> Result<Refused, AllocError>
    ensures { IfOk result (λ why. why ≡ many_files lid.now) }
{
    Refused::over_limit(alloc, lid, lid, b"files", b"64")
}

/// The library of a LID file of this text.
fn lid_library<F: Files>(
    alloc: Global,
    files: &mut F,
    lid: &str,
    text: &[u8],
    before: &Libraries,
) -> Result<ReadLibrary, Halt>
    requires within { length text.now ≤ file_limit }
    requires before { AreLibraries before.now }
    ensures verdict { (held : FileMap) → F.contents files.old ≡ Some held
        → Judged (JudgesLid before.now held lid.now text.now) result }
    ensures accepted { IfOk result (IsAccepted before.now) }
    ensures missed { IfErr result (Misses (F.misses files.old) (F.misses files.new)) }
    ensures failed { IfErr result (Fails (F.faults files.old) (F.faults files.new)) }
    ensures named { IfErr result
        (TellsName (λ told. (found : Lid) × IsLid text.now found
        × IsSourceOf lid.now found.files told)) }
    ensures contents { F.contents files.new ≡ F.contents files.old }
    ensures misses { F.misses files.old ≤ F.misses files.new }
    ensures faults { F.faults files.old ≤ F.faults files.new }
{
    if named_files(text) <= FILES_LIMIT {
        form_library(alloc, files, lid, text, before)
    } else {
        let why = many_files(alloc, lid.as_bytes())?;
        Err(Halt::Refused(why))
    }
}

/// The library of a LID file behind those that were compiled before it, or why there is none.
///
/// A LID file names up to 64 source files, which lie beside it. Each file has at most 4,194,304
/// bytes. A LID file that is absent is told first, then one that is too long or names too many
/// files, then the first line of it that is out of form; then, of the first source file in its
/// order that is absent or too long, that it is so; then that the command has 64 libraries already,
/// beside the two that are built in; and then the first fault of the texts. Files are read in this
/// order, and none behind a fault.
///
/// `Refused` comes with the first fault of the library, as `read_sources` of `dy_verdict` finds it
/// in the texts; `FileFault` where the files count one more failure, with the name of a file that
/// is read for this LID file; and `Memory` where memory ran out. No file is written.
pub fn read_library<F: Files>(
    alloc: Global,
    files: &mut F,
    lid: &str,
    before: &Libraries,
) -> Result<ReadLibrary, Halt>
    requires { AreLibraries before.now }
    ensures verdict { (held : FileMap) → F.contents files.old ≡ Some held
        → Judged (IsVerdict held before.now lid.now) result }
    ensures accepted { IfOk result (IsAccepted before.now) }
    ensures missed { IfErr result (Misses (F.misses files.old) (F.misses files.new)) }
    ensures failed { IfErr result (Fails (F.faults files.old) (F.faults files.new)) }
    ensures named { IfErr result (TellsName (NamesFile (F.contents files.old) lid.now)) }
    ensures contents { F.contents files.new ≡ F.contents files.old }
    ensures misses { F.misses files.old ≤ F.misses files.new }
    ensures faults { F.faults files.old ≤ F.faults files.new }
{
    let text = read_text(alloc, files, lid.as_bytes(), lid)?;
    lid_library(alloc, files, lid, text.bytes(), before)
}
