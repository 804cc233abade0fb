//! Where forms may end.

ghost use Rattle.std.specs.Prelude.{◌≡◌, ℕ, ◌<◌, ◌≤◌, true, length, slice_get, Option, Some};
ghost use Rattle.dy_base.specs.declared.fault.Place.{Place};
ghost use Rattle.dy_tree.specs.declared.token.Token.{Token};
ghost use Rattle.dy_complete_forms.specs.Forms.{ends_at};

use dy_base::Place;
use dy_tree::Token;

/// The last end of a form among the first tokens, up to a number.
pub(crate) fn last_end(tokens: &[Token], count: usize) -> usize
    requires { count ≤ length tokens.now }
    ensures ended { ends_at tokens.now result ≡ true }
    ensures within { result ≤ count }
    ensures last { (other : ℕ) → other ≤ count → ends_at tokens.now other ≡ true
        → other ≤ result }
{
    let mut end = count;
    while 0 < end {
        if tokens[end - 1].is_sign(b";") {
            return end;
        }
        end -= 1;
    }
    0
}

/// How many tokens stand in front of the last one that begins at this byte.
fn last_from(tokens: &[Token], offset: u32) -> usize
    ensures within { result ≤ length tokens.now }
    ensures last { (i : ℕ) (t : Token) → slice_get tokens.now i ≡ Some t
        → t.place.offset ≡ offset → (i ≤ result) × (result < length tokens.now) }
{
    let mut left = tokens.len();
    while 0 < left {
        left -= 1;
        if tokens[left].place.offset == offset {
            return left;
        }
    }
    0
}

/// The last end of a form in front of what stands at a place.
pub(crate) fn end_before(tokens: &[Token], place: Option<Place>) -> usize
    ensures ended { ends_at tokens.now result ≡ true }
    ensures last { (i : ℕ) (t : Token) → slice_get tokens.now i ≡ Some t → place ≡ Some t.place
        → (result < length tokens.now) × ((other : ℕ) → other ≤ i
        → ends_at tokens.now other ≡ true → other ≤ result) }
{
    match place {
        None => 0,
        Some(place) => last_end(tokens, last_from(tokens, place.offset)),
    }
}
