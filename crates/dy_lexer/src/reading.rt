//! The tokens of a text.

ghost use Rattle.std.specs.Prelude.{◌≡◌, ℕ, ◌+◌, ◌-◌, ◌≤◌, ◌<◌, ◌^◌, length, drop, [], Ok};
ghost use Rattle.dy_lexer.specs.Tokens.{Gives, tokens_of, joined_after};
ghost use Rattle.dy_pieces.specs.Pieces.{IsNameless};

use crate::token::{add_piece, fault};
use dy_base::{Place, Refusal};
use dy_pieces::{Class, class_of, piece_at};
use dy_tree::Token;
use std::alloc::Global;

/// A number of bytes at which no name begins, so that no byte is asked twice for the name of which
/// it is no part.
fn nameless(bytes: &[u8]) -> usize
    ensures { IsNameless result bytes.now }
{
    for (i, b) in bytes.iter().enumerate() {
        match class_of(*b) {
            Class::Graphic => {}
            Class::Letter => return 0,
            _ => return i,
        }
    }
    bytes.len()
}

/// The same after the next piece, which has `n` bytes.
fn nameless_after(bare: usize, n: usize, bytes: &[u8]) -> usize
    requires bare { IsNameless bare bytes.now }
    requires within { n ≤ length bytes.now }
    ensures { IsNameless result (drop n bytes.now) }
{
    if n < bare {
        bare - n
    } else {
        nameless(&bytes[n..])
    }
}

/// The tokens of the text that begins at an offset of a file, or the first fault in it.
pub(crate) fn tokens_of(
    alloc: Global,
    file: u32,
    start: u32,
    text: &[u8],
) -> Result<Vec<Token>, Refusal>
    requires { start + length text.now < 2 ^ 32 }
    ensures { (n : ℕ) → length text.now ≤ n
        → Gives (λ v. v.items) result (joined_after [] (tokens_of n file start text.now)) }
{
    let mut tokens = Vec::new(alloc);
    let mut rest = text;
    let mut at = start;
    let mut bare = 0;
    while 0 < rest.len() {
        let place = Place { file, offset: at };
        let (piece, n) = match piece_at(rest, 0 < bare) {
            Ok(found) => found,
            Err(kind) => return Err(fault(alloc, kind, place)),
        };
        bare = nameless_after(bare, n, rest);
        let (front, after) = rest.split_at(n);
        tokens = add_piece(alloc, tokens, piece, place, front, after)?;
        rest = after;
        at += n as u32;
    }
    Ok(tokens)
}
