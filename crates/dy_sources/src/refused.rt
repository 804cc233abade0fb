//! Why a library is refused, and the line of it.

ghost use Rattle.std.specs.Prelude.{◌≡◌, ◌++◌, IfOk, OnOk, decimal};
ghost use Rattle.dy_sources.specs.Points.{point_at};
ghost use Rattle.dy_sources.specs.Refusals.{kind_text, position_text, spaced, shown_text};
ghost use Rattle.dy_sources.specs.Refusals.{refusal_line, no_file, position_at, begin_of};
ghost use Rattle.dy_sources.specs.Refusals.{past_limit, over_limit, unknown_main};

use crate::point::{point_at, start};
use dy_base::{Items, Kind, Text, fold};
use itoa::Buffer;
use std::alloc::{AllocError, Global};

/// A place in a file, as a user counts.
#[derive(Debug, Drop)]
pub struct Position {
    /// The name under which the file is read.
    pub file: Text,
    /// From 1: one more than the line feeds before the place.
    pub line: u64,
    /// From 1, in bytes: one more than the bytes between the last line feed and the place.
    pub column: u64,
}

/// Why a library is refused.
#[derive(Debug, Drop)]
pub struct Refused {
    /// The kind of the first fault.
    pub kind: Kind,
    /// The library, or the LID file where no library is known.
    pub subject: Text,
    /// Where the fault stands, if it has a place; an absent file has none.
    pub position: Option<Position>,
    /// What is shown behind the place.
    pub shown: Items<Text>,
}

impl Refused {
    /// A file is absent. It is shown, but where it is the subject itself.
    pub(crate) fn no_file(alloc: Global, subject: &[u8], file: &[u8]) -> Result<Refused, AllocError>
        ensures { IfOk result (λ refused. refused ≡ no_file subject.now file.now) }
    {
        let mut shown = Items::new(alloc);
        if file != subject {
            shown.push(Text::of(alloc, file)?)?;
        }
        Ok(Refused {
            kind: Kind::NoFile,
            subject: Text::of(alloc, subject)?,
            position: None,
            shown,
        })
    }

    /// A limit is passed, which is shown with its number.
    pub(crate) fn past_limit(
        alloc: Global,
        subject: &[u8],
        position: Option<Position>,
        quantity: &[u8],
        most: &[u8],
    ) -> Result<Refused, AllocError>
        ensures { IfOk result
            (λ refused. refused ≡ past_limit subject.now position quantity.now most.now) }
    {
        let mut shown = Items::new(alloc);
        shown.push(Text::of(alloc, quantity)?)?;
        shown.push(Text::of(alloc, most)?)?;
        Ok(Refused {
            kind: Kind::Limit,
            subject: Text::of(alloc, subject)?,
            position,
            shown,
        })
    }

    /// A file is over a limit, which is shown with its number.
    pub(crate) fn over_limit(
        alloc: Global,
        subject: &[u8],
        file: &[u8],
        quantity: &[u8],
        most: &[u8],
    ) -> Result<Refused, AllocError>
        ensures { IfOk result
            (λ refused. refused ≡ over_limit subject.now file.now quantity.now most.now) }
    {
        let position = begin_of(alloc, file)?;
        Refused::past_limit(alloc, subject, Some(position), quantity, most)
    }
}

/// The begin of a file.
pub(crate) fn begin_of(alloc: Global, file: &[u8]) -> Result<Position, AllocError>
    ensures { IfOk result (λ position. position ≡ begin_of file.now) }
{
    let point = start();
    Ok(Position {
        file: Text::of(alloc, file)?,
        line: point.line,
        column: point.column,
    })
}

/// A command has no library of the name that it is to run: the name, folded, is the subject and is
/// shown. The one error is want of memory.
pub fn unknown_main(alloc: Global, name: &[u8]) -> Result<Refused, AllocError>
    ensures { IfOk result (λ refused. refused ≡ unknown_main name.now) }
{
    let name = fold(alloc, name)?;
    let mut shown = Items::new(alloc);
    shown.push(Text::of(alloc, name.bytes())?)?;
    Ok(Refused {
        kind: Kind::UnknownLibrary,
        subject: Text::of(alloc, name.bytes())?,
        position: None,
        shown,
    })
}

/// Where a fault of a file stands.
pub(crate) fn position_at(
    alloc: Global,
    file: &[u8],
    text: &[u8],
    offset: u32,
) -> Result<Position, AllocError>
    ensures { IfOk result (λ position. position ≡ position_at file.now (point_at text.now offset)) }
{
    let point = point_at(text, offset as usize);
    Ok(Position {
        file: Text::of(alloc, file)?,
        line: point.line,
        column: point.column,
    })
}

fn push_number(line: &mut Vec<u8>, number: u64) -> Result<(), AllocError>
    ensures { OnOk result (line.new.items ≡ line.old.items ++ decimal number) }
{
    let mut buffer = Buffer::new();
    line.extend_from_slice(buffer.format(number).as_bytes())
}

fn push_position(line: &mut Vec<u8>, position: &Option<Position>) -> Result<(), AllocError>
    ensures { OnOk result (line.new.items ≡ line.old.items ++ position_text position.now) }
{
    if let Some(at) = position {
        line.extend_from_slice(b" at ")?;
        line.extend_from_slice(at.file.bytes())?;
        line.extend_from_slice(b":")?;
        push_number(line, at.line)?;
        line.extend_from_slice(b":")?;
        push_number(line, at.column)?;
    }
    Ok(())
}

/// Adds each item behind a blank.
fn push_spaced(line: &mut Vec<u8>, items: &[Text]) -> Result<(), AllocError>
    ensures { OnOk result (line.new.items ≡ line.old.items ++ spaced items.now) }
{
    for item in items {
        line.push(b' ')?;
        line.extend_from_slice(item.bytes())?;
    }
    Ok(())
}

fn push_shown(line: &mut Vec<u8>, items: &[Text]) -> Result<(), AllocError>
    ensures { OnOk result (line.new.items ≡ line.old.items ++ shown_text items.now) }
{
    if !items.is_empty() {
        line.push(b':')?;
        push_spaced(line, items)?;
    }
    Ok(())
}

/// The number and the name of a kind.
fn push_kind(line: &mut Vec<u8>, kind: &Kind) -> Result<(), AllocError>
    ensures { OnOk result (line.new.items ≡ line.old.items ++ kind_text kind.now) }
{
    push_number(line, u64::from(kind.code()))?;
    line.push(b' ')?;
    line.extend_from_slice(kind.name().as_bytes())
}

/// The line `refused SUBJECT: NUMBER NAME at FILE:LINE:COLUMN: ITEMS`, with a line feed at its end.
/// The number and the name are those of the kind. ` at ` and the place are left out where there is
/// none, and the last colon where nothing is shown; a blank stands before each item. Want of memory
/// is the only error.
pub fn refusal_line(alloc: Global, refused: &Refused) -> Result<Vec<u8>, AllocError>
    ensures { IfOk result (λ line. line.items ≡ refusal_line refused.now) }
{
    let mut line = Vec::from_slice(alloc, b"refused ")?;
    line.extend_from_slice(refused.subject.bytes())?;
    line.extend_from_slice(b": ")?;
    push_kind(&mut line, &refused.kind)?;
    push_position(&mut line, &refused.position)?;
    push_shown(&mut line, refused.shown.as_slice())?;
    line.push(b'\n')?;
    Ok(line)
}
