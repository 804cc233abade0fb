//! The clauses of a form.

ghost use Rattle.std.specs.Prelude.{◌≡◌, IfOk, option_map};
ghost use Rattle.dy_tree.specs.Fragments.{seen_fragment, seen_fragments};
ghost use Rattle.dy_module_forms.specs.Clauses as spec;

use crate::cuts::{is_end, split_part};
use crate::names::{name_alone, names_of};
use crate::options::{are_once, options_of};
use crate::written::{Clause, Kind, Placed};
use dy_base::Items;
use dy_tree::{Fragment, Token};
use std::alloc::{AllocError, Global};

fn use_of(alloc: Global, fragments: &[Fragment]) -> Result<Option<Clause>, AllocError>
    ensures { IfOk result (λ found. found ≡ spec.use_of (seen_fragments fragments.now)) }
{
    let (first, others) = split_part(b",", fragments);
    let Some(name) = name_alone(alloc, first)? else {
        return Ok(None);
    };
    let Some(options) = options_of(alloc, others)? else {
        return Ok(None);
    };
    if are_once(options.as_slice()) {
        Ok(Some(Clause::Use(name, options)))
    } else {
        Ok(None)
    }
}

fn export_of(alloc: Global, fragments: &[Fragment]) -> Result<Option<Clause>, AllocError>
    ensures { IfOk result (λ found. found
        ≡ option_map Clause.Export (spec.names_of (seen_fragments fragments.now))) }
{
    match names_of(alloc, fragments)? {
        Some(names) => Ok(Some(Clause::Export(names))),
        None => Ok(None),
    }
}

fn create_of(alloc: Global, fragments: &[Fragment]) -> Result<Option<Clause>, AllocError>
    ensures { IfOk result (λ found. found
        ≡ option_map Clause.Create (spec.names_of (seen_fragments fragments.now))) }
{
    match names_of(alloc, fragments)? {
        Some(names) => Ok(Some(Clause::Create(names))),
        None => Ok(None),
    }
}

fn may_create(kind: Kind) -> bool
    ensures { result ≡ spec.may_create kind }
{
    match kind {
        Kind::Library => false,
        Kind::Module => true,
    }
}

fn clause_with(
    alloc: Global,
    kind: Kind,
    word: &Token,
    rest: &[Fragment],
) -> Result<Option<Clause>, AllocError>
    ensures { IfOk result (λ found. found
        ≡ spec.clause_with kind word.now (seen_fragments rest.now)) }
{
    if word.is_word(b"use") {
        use_of(alloc, rest)
    } else if word.is_word(b"export") {
        export_of(alloc, rest)
    } else if may_create(kind) && word.is_word(b"create") {
        create_of(alloc, rest)
    } else {
        Ok(None)
    }
}

fn clause_behind(
    alloc: Global,
    kind: Kind,
    word: &Fragment,
    rest: &[Fragment],
) -> Result<Option<Placed>, AllocError>
    ensures { IfOk result (λ found. found
        ≡ spec.clause_behind kind (seen_fragment word.now) (seen_fragments rest.now)) }
{
    match word {
        Fragment::One(token) => match clause_with(alloc, kind, token, rest)? {
            Some(clause) => Ok(Some(Placed {
                place: token.place,
                clause,
            })),
            None => Ok(None),
        },
        Fragment::Group { .. } => Ok(None),
    }
}

fn clause_of(
    alloc: Global,
    kind: Kind,
    fragments: &[Fragment],
) -> Result<Option<Placed>, AllocError>
    ensures { IfOk result (λ found. found ≡ spec.clause_of kind (seen_fragments fragments.now)) }
{
    match fragments.split_first() {
        Some((word, rest)) => clause_behind(alloc, kind, word, rest),
        None => Ok(None),
    }
}

/// Clauses with semicolons behind them, of which the last may lack it.
pub(crate) fn clauses_of(
    alloc: Global,
    kind: Kind,
    fragments: &[Fragment],
) -> Result<Option<Items<Placed>>, AllocError>
    ensures { IfOk result (λ found. found ≡ spec.clauses_of kind (seen_fragments fragments.now)) }
{
    let mut clauses = Items::new(alloc);
    let mut next = Some(fragments);
    while let Some(rest) = next {
        let (part, others) = split_part(b";", rest);
        if is_end(part, others) {
            return Ok(Some(clauses));
        }
        match clause_of(alloc, kind, part)? {
            Some(clause) => clauses.push(clause)?,
            None => return Ok(None),
        }
        next = others;
    }
    Ok(Some(clauses))
}
