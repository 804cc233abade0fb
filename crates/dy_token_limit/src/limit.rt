//! The form with which those of a library have too many tokens.

ghost use Rattle.std.specs.Prelude.{◌≡◌, map, IfOk};
ghost use Rattle.dy_tree.specs.Fragments.{seen_fragments};
ghost use Rattle.dy_token_limit.specs.Limit.{IsFirstOver, too_many_tokens};

use crate::tokens::left_behind_all;
use dy_base::{Fault, Items, Kind, Place, Text};
use dy_tree::Fragment;
use std::alloc::{AllocError, Global};

/// The forms of a library have at most so many tokens in all (own).
pub const MOST_TOKENS: u64 = 16_777_216;

/// The number, counted from 0, of the first form with which the forms up to it have more than
/// `most` tokens in all, and `None` where all of them together have no more. Counted are the tokens
/// in the groups of a form, their openers and closers among them. What stands behind that form is
/// not looked at, so any number of tokens may follow.
pub fn first_over(forms: &[&[Fragment]], most: u64) -> Option<usize>
    ensures { IsFirstOver most (map (λ form. seen_fragments form.now) forms.now) result }
{
    let mut left = most;
    for (number, form) in forms.iter().enumerate() {
        match left_behind_all(form, left) {
            Some(rest) => left = rest,
            None => return Some(number),
        }
    }
    None
}

/// The fault of a form, which begins at this place, with which a library has more than
/// `MOST_TOKENS` tokens. Its subject is written later.
pub fn too_many_tokens(alloc: Global, place: Place) -> Result<Fault, AllocError>
    ensures { IfOk result (λ fault. fault ≡ too_many_tokens place) }
{
    let mut shown = Items::new(alloc);
    shown.push(Text::of(alloc, b"tokens")?)?;
    shown.push(Text::of(alloc, b"16777216")?)?;
    Ok(Fault {
        kind: Kind::Limit,
        library: Text::of(alloc, b"")?,
        place: Some(place),
        shown,
        numbers: Items::new(alloc),
    })
}
