//! Whole forms.

ghost use Rattle.std.specs.Prelude.{◌≡◌, IfOk};
ghost use Rattle.dy_tree.specs.Fragments.{seen_fragment, seen_fragments};
ghost use Rattle.dy_module_forms.specs.Forms as spec;
ghost use Rattle.dy_module_forms.specs.Forms.{forms_of, syntax_at, Answers};

use crate::clauses::clauses_of;
use crate::cuts::{is_mark, place_of, split_piece};
use crate::names::name_of;
use crate::written::{Form, Kind};
use dy_base::{Fault, Items, Place, Refusal, Text};
use dy_tree::{Fragment, Token};
use std::alloc::{AllocError, Global};

fn kind_of(fragment: &Fragment) -> Option<Kind>
    ensures { result ≡ spec.kind_of (seen_fragment fragment.now) }
{
    match fragment {
        Fragment::One(word) => {
            if word.is_word(b"library") {
                Some(Kind::Library)
            } else if word.is_word(b"module") {
                Some(Kind::Module)
            } else {
                None
            }
        }
        Fragment::Group { .. } => None,
    }
}

fn form_with(
    alloc: Global,
    kind: Kind,
    place: Place,
    name: &Fragment,
    rest: &[Fragment],
) -> Result<Option<Form>, AllocError>
    ensures { IfOk result (λ found. found
        ≡ spec.form_of_kind (Some kind) place (seen_fragment name.now) (seen_fragments rest.now)) }
{
    let Some(name) = name_of(alloc, name)? else {
        return Ok(None);
    };
    match clauses_of(alloc, kind, rest)? {
        Some(clauses) => Ok(Some(Form {
            kind,
            place,
            name,
            clauses,
        })),
        None => Ok(None),
    }
}

fn form_in(alloc: Global, place: Place, inner: &[Fragment]) -> Result<Option<Form>, AllocError>
    ensures { IfOk result (λ found. found ≡ spec.form_in place (seen_fragments inner.now)) }
{
    match inner {
        [word, name, rest @ ..] => match kind_of(word) {
            Some(kind) => form_with(alloc, kind, place, name, rest),
            None => Ok(None),
        },
        _ => Ok(None),
    }
}

#[tactic(auto, using(dy_rules::proofs::Lists::row_pack))]
fn form_of(alloc: Global, fragment: &Fragment) -> Result<Option<Form>, AllocError>
    ensures { IfOk result (λ found. found ≡ spec.form_of (seen_fragment fragment.now)) }
{
    match fragment {
        Fragment::One(_) => Ok(None),
        Fragment::Group { opener, inner, .. } => {
            if opener.is_word(b"define") {
                form_in(alloc, opener.place, inner.as_slice())
            } else {
                Ok(None)
            }
        }
    }
}

fn piece_form(alloc: Global, piece: &[Fragment]) -> Result<Option<Form>, AllocError>
    ensures { IfOk result (λ found. found ≡ spec.piece_form (seen_fragments piece.now)) }
{
    match piece {
        [only] => form_of(alloc, only),
        [form, mark] => {
            if is_mark(b";", mark) {
                form_of(alloc, form)
            } else {
                Ok(None)
            }
        }
        _ => Ok(None),
    }
}

fn piece_place(piece: &[Fragment]) -> Place
    ensures { result ≡ spec.piece_place (seen_fragments piece.now) }
{
    match piece.split_first() {
        Some((first, _)) => place_of(first),
        None => Place { file: 0, offset: 0 },
    }
}

fn syntax_at(alloc: Global, place: Place) -> Refusal
    ensures { result ≡ Refusal.Fault (syntax_at place) }
{
    Refusal::Fault(Fault {
        kind: dy_base::Kind::Syntax,
        library: Text::from_vec(Vec::new(alloc)),
        place: Some(place),
        shown: Items::new(alloc),
        numbers: Items::new(alloc),
    })
}

/// The forms that define a library and its modules, of the fragments of all their files, one file
/// after the other (DRM 4, "Modules" and "Libraries").
///
/// A refusal is `Syntax` at the first fragment of the first piece between semicolons that is no
/// such form, exactly where there is one, or says that memory did not suffice.
pub fn read_forms(alloc: Global, fragments: &[Fragment]) -> Result<Items<Form>, Refusal>
    ensures { Answers (forms_of (seen_fragments fragments.now)) result }
{
    let mut forms = Items::new(alloc);
    let mut rest = fragments;
    while rest.len() > 0 {
        let (piece, others) = split_piece(rest);
        match piece_form(alloc, piece)? {
            Some(form) => forms.push(form)?,
            None => return Err(syntax_at(alloc, piece_place(piece))),
        }
        rest = others;
    }
    Ok(forms)
}
