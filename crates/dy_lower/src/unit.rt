//! The unit of a library.

ghost use Rattle.std.specs.Prelude.{◌≡◌, IfOk, IfErr, map, true, false};
ghost use Rattle.dy_meaning.specs.Numbers.{greatest};
ghost use Rattle.dy_lowered.specs.Units.{body_of, lowered, lowered_unit};
ghost use Rattle.dy_lowered.specs.Tables.{tables_of};
ghost use Rattle.dy_lower_lists.specs.Listed.{tables};
ghost use Rattle.dy_lower_library.specs.Seen.{seen_body, seen_bodies};
ghost use Rattle.dy_lowering_whole.specs.Lowered.{is_library_lowered};
ghost use Rattle.dy_lower_kinds.specs.Kinds.{library_has_code};
ghost use Rattle.dy_lower.specs.Placed.{instructions_of};
ghost use Rattle.dy_lower.specs.Behaving.{DoesAsMeant};

use crate::refusal::Refusal;
use dy_bare_rows::bare_row;
use dy_base::{Items, fold};
use dy_code::{Body, Library, Unit, UnitCode};
use dy_lower_kinds::library_has_code;
use dy_lower_library::{FlatBody, bodies_of, starts_of, tops_of};
use dy_lower_lists::Lists;
use dy_lower_parts::Refusal as CodeRefusal;
use dy_stretch::stretch;
use dy_term::{LibraryRow, Program};
use std::alloc::Global;

/// The lists of what the instructions of bodies name.
fn lists_of<'a>(alloc: Global, bodies: &[FlatBody<'a>]) -> Result<Lists<'a>, CodeRefusal>
    ensures { IfOk result (λ lists. tables lists
        ≡ tables_of (instructions_of (seen_bodies bodies.now))) }
{
    let mut lists = Lists::new(alloc);
    for body in bodies {
        lists.note_code(&body.code)?;
    }
    Ok(lists)
}

/// A body whose items stand in the lists.
fn written<'a>(alloc: Global, lists: &Lists<'a>, body: &FlatBody<'a>) -> Result<Body, CodeRefusal>
    ensures { IfOk result (λ written. written ≡ body_of (tables lists.now) (seen_body body.now)) }
{
    let longest = stretch(alloc, &body.code)?;
    let code = lists.written(alloc, &body.code)?;
    Ok(Body {
        locals: body.locals,
        captures: body.captures,
        stretch: longest,
        code,
    })
}

fn all_written<'a>(
    alloc: Global,
    lists: &Lists<'a>,
    bodies: &[FlatBody<'a>],
) -> Result<Items<Body>, CodeRefusal>
    ensures { IfOk result (λ all. all ≡ map (body_of (tables lists.now)) (seen_bodies bodies.now)) }
{
    let mut all = Items::new(alloc);
    for body in bodies {
        all.push(written(alloc, lists, body)?)?;
    }
    Ok(all)
}

/// The longest stretch of bodies.
fn longest(bodies: &[Body]) -> u64
    ensures { result ≡ greatest (map (λ body. body.stretch) bodies.now) }
{
    let mut most = 0;
    for body in bodies {
        if most < body.stretch {
            most = body.stretch;
        }
    }
    most
}

/// The code of a library, from the library and what it sees alone: its view, of which it is the
/// last library. Nothing of the others is looked at yet.
fn code_of(alloc: Global, library: &LibraryRow) -> Result<UnitCode, CodeRefusal>
    ensures { IfOk result (λ code. (view : _) → code ≡ lowered view library.now) }
{
    let flat = bodies_of(alloc, library)?;
    let lists = lists_of(alloc, &flat)?;
    let bodies = all_written(alloc, &lists, &flat)?;
    let stretch = longest(bodies.as_slice());
    Ok(UnitCode {
        constants: lists.constants(alloc)?,
        names: lists.names(alloc)?,
        bound: Items::new(alloc),
        lists: lists.lists(alloc)?,
        types: lists.types(alloc)?,
        results: lists.results(alloc)?,
        bodies,
        starts: starts_of(alloc, library)?,
        tops: tops_of(alloc, library)?,
        stretch,
    })
}

/// The unit of a library with its code, whatever its view is.
fn unit_of(alloc: Global, library: Library, code: UnitCode) -> Result<Unit, CodeRefusal>
    ensures { IfOk result (λ unit. (view : _) → code ≡ lowered view library.row
        → unit ≡ lowered_unit view library) }
{
    let name = fold(alloc, library.row.name.bytes())?;
    Ok(Unit {
        name,
        uses: library.uses,
        row: bare_row(alloc, library.row)?,
        exports: library.exports,
        macros: library.macros,
        code,
    })
}

/// The code of a library, which keeps its terms. It hangs on the library alone. An error is want of
/// memory, or says that a term has no code yet.
pub fn lower_code(alloc: Global, library: &LibraryRow) -> Result<UnitCode, Refusal>
    // It is the code that is defined, whatever the library sees.
    ensures code { IfOk result (λ code. (view : _) → code ≡ lowered view library.now) }
    // On it the machine does what the library means.
    ensures behaves { IfOk result (λ code. DoesAsMeant library.now code) }
    // Each term of it is of a kind that has code.
    ensures coded { IfOk result (λ code. library_has_code library.now ≡ true) }
    // Where the library is refused, a term is of a kind that has none.
    ensures refused { IfErr result (λ refusal. refusal ≡ Refusal.NotYet
        → library_has_code library.now ≡ false) }
    // A library that is lowered yet is not refused: the one error is want of memory.
    ensures lowers { is_library_lowered library.now ≡ true
        → IfErr result (λ refusal. refusal ≡ Refusal.Memory) }
{
    if !library_has_code(library) {
        return Err(Refusal::NotYet);
    }
    match code_of(alloc, library) {
        Ok(code) => Ok(code),
        Err(_) => Err(Refusal::Memory),
    }
}

/// The unit of a library: its rows without their terms, and its code. It hangs on the library and
/// on its view alone. An error is want of memory, or says that a term has no code yet.
pub fn lower(alloc: Global, view: &Program, library: Library) -> Result<Unit, Refusal>
    // It is the unit that is defined.
    ensures unit { IfOk result (λ unit. unit ≡ lowered_unit view.now library) }
    // On its code the machine does what the library means.
    ensures behaves { IfOk result (λ unit. DoesAsMeant library.row unit.code) }
    // Each term of it is of a kind that has code.
    ensures coded { IfOk result (λ unit. library_has_code library.row ≡ true) }
    // Where the library is refused, a term is of a kind that has none.
    ensures refused { IfErr result (λ refusal. refusal ≡ Refusal.NotYet
        → library_has_code library.row ≡ false) }
    // A library that is lowered yet is not refused: the one error is want of memory.
    ensures lowers { is_library_lowered library.row ≡ true
        → IfErr result (λ refusal. refusal ≡ Refusal.Memory) }
{
    let code = lower_code(alloc, &library.row)?;
    match unit_of(alloc, library, code) {
        Ok(unit) => Ok(unit),
        Err(_) => Err(Refusal::Memory),
    }
}
