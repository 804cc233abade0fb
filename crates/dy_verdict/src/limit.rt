//! The limit on the tokens of a library's forms.

ghost use Rattle.std.specs.Prelude.{◌≡◌, map, IfOk};
ghost use Rattle.dy_tree.specs.Fragments.{seen_fragments};
ghost use Rattle.dy_verdict.specs.Pieces.{seen_piece};
ghost use Rattle.dy_verdict.specs.Limits.{fragments_in, AnswersLimit};

use crate::pieces::{Piece, place_of};
use dy_base::Refusal;
use dy_token_limit::{MOST_TOKENS, first_over, too_many_tokens};
use dy_tree::Fragment;
use std::alloc::{AllocError, Global};

/// The fragments of each piece.
fn fragments_in<'a>(alloc: Global, pieces: &'a [Piece]) -> Result<Vec<&'a [Fragment]>, AllocError>
    ensures { IfOk result (λ forms. map (λ form. seen_fragments form.now) forms.items
        ≡ fragments_in (map seen_piece pieces.now)) }
{
    let mut forms = Vec::new(alloc);
    for piece in pieces {
        forms.push(piece.fragments.as_slice())?;
    }
    Ok(forms)
}

/// Refuses pieces that have too many tokens in all, at the first with which they have.
pub(crate) fn check_tokens(alloc: Global, pieces: &[Piece]) -> Result<(), Refusal>
    ensures { AnswersLimit (map seen_piece pieces.now) result }
{
    let forms = fragments_in(alloc, pieces)?;
    match first_over(&forms, MOST_TOKENS) {
        Some(number) => {
            let place = place_of(&pieces[number]);
            Err(Refusal::Fault(too_many_tokens(alloc, place)?))
        }
        None => Ok(()),
    }
}
