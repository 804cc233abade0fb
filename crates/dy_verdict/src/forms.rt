//! The forms of files, read.

ghost use Rattle.std.specs.Prelude.{◌≡◌, Ok, Err, map, IfOk};
ghost use Rattle.dy_tree.specs.Fragments.{seen_fragments};
ghost use Rattle.dy_rules.specs.SeenForms.{seen_form as seen_tree};
ghost use Rattle.dy_construct_parts.specs.Table.{first_absent};
ghost use Rattle.dy_constructs.specs.Forms.{in_form};
ghost use Rattle.dy_verdict.specs.Pieces.{seen_piece};
ghost use Rattle.dy_verdict.specs.Forms.{form_reading, reading};
ghost use Rattle.dy_verdict.specs.Readings.{seen_reading, Tells, AreForms};

use crate::faults::fault_at;
use crate::pieces::{Piece, place_of};
use dy_base::{Kind, Place, Refusal};
use dy_constructs::absent_construct;
use dy_reader::parse;
use dy_surface::to_core;
use dy_term::Draft;
use dy_tree::{Form, Fragment};
use std::alloc::{AllocError, Global};

/// What the fragments of a form are read as.
#[derive(Debug, Drop)]
pub(crate) enum Reading {
    Fits(Draft),
    /// They are refused with a fault of this kind.
    Faulty(Kind),
}

/// What a form that was parsed is read as: it is refused where it holds a construct that has not
/// come.
fn form_reading(alloc: Global, form: &Form) -> Result<Reading, AllocError>
    ensures { IfOk result (λ found. seen_reading found
        ≡ form_reading (seen_tree form.now) (first_absent (in_form (seen_tree form.now)))) }
{
    match absent_construct(form) {
        Some(_) => Ok(Reading::Faulty(Kind::Syntax)),
        None => Ok(Reading::Fits(to_core(alloc, form)?)),
    }
}

/// What is told of a form that the parser refuses.
fn refused_reading(refusal: Refusal) -> Result<Reading, AllocError>
    ensures { IfOk result (λ found. Tells refusal (seen_reading found)) }
{
    match refusal {
        Refusal::Fault(fault) => Ok(Reading::Faulty(fault.kind)),
        Refusal::Memory => Err(AllocError),
    }
}

/// What the fragments of a form are read as.
fn read_form(alloc: Global, fragments: &Vec<Fragment>) -> Result<Reading, AllocError>
    ensures { IfOk result (λ found. seen_reading found
        ≡ reading (seen_fragments fragments.now.items)) }
{
    match parse(alloc, fragments) {
        Ok(form) => form_reading(alloc, &form),
        Err(refusal) => refused_reading(refusal),
    }
}

/// The forms, each with the place where it begins; or the fault of the first piece that is refused,
/// since it is no form that runs. Each piece is given back when it is read.
pub(crate) fn forms_of(alloc: Global, pieces: Vec<Piece>) -> Result<Vec<(Place, Draft)>, Refusal>
    ensures { AreForms (map seen_piece pieces.items) result }
{
    let mut forms = Vec::new(alloc);
    for piece in pieces {
        let place = place_of(&piece);
        match read_form(alloc, &piece.fragments)? {
            Reading::Fits(draft) => forms.push((place, draft))?,
            Reading::Faulty(kind) => return Err(Refusal::Fault(fault_at(alloc, kind, place))),
        }
    }
    Ok(forms)
}
