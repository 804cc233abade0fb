//! Fragments cut at commas and semicolons.

ghost use Rattle.std.specs.Prelude.{◌≡◌, ◌+◌, ◌≤◌, ◌∷◌, length, take, drop, option_map};
ghost use Rattle.dy_tree.specs.Fragments.{seen_fragment, seen_fragments};
ghost use Rattle.dy_module_forms.specs.Cuts as spec;
ghost use Rattle.dy_module_forms.specs.Cuts.{left, seen_slice, parts, parts_behind};

use dy_base::Place;
use dy_tree::Fragment;

/// Whether a fragment is this punctuation.
pub(crate) fn is_mark(mark: &[u8], fragment: &Fragment) -> bool
    ensures { result ≡ spec.is_mark mark.now (seen_fragment fragment.now) }
{
    match fragment {
        Fragment::One(token) => token.is_sign(mark),
        Fragment::Group { .. } => false,
    }
}

/// Where a fragment begins.
pub(crate) fn place_of(fragment: &Fragment) -> Place
    ensures { result ≡ spec.place_of (seen_fragment fragment.now) }
{
    match fragment {
        Fragment::One(token) => token.place,
        Fragment::Group { opener, .. } => opener.place,
    }
}

fn front_len(mark: &[u8], fragments: &[Fragment]) -> usize
    ensures len { result ≡ spec.front_len mark.now (seen_fragments fragments.now) }
    ensures within { result ≤ length fragments.now }
{
    for at in 0..fragments.len() {
        if is_mark(mark, &fragments[at]) {
            return at;
        }
    }
    fragments.len()
}

/// How many fragments stand in front of the first mark, so that the rest begins with it.
#[tactic(auto, using(crate::proofs::Parts::cut_at))]
fn part_len(mark: &[u8], fragments: &[Fragment]) -> usize
    ensures parts { parts mark.now (seen_fragments fragments.now)
        ≡ seen_fragments (take result fragments.now)
        ∷ parts_behind mark.now (spec.behind_first
        (seen_fragments (drop result fragments.now))) }
    ensures within { result ≤ length fragments.now }
{
    front_len(mark, fragments)
}

fn behind_first(fragments: &[Fragment]) -> Option<&[Fragment]>
    ensures behind { option_map seen_slice result
        ≡ spec.behind_first (seen_fragments fragments.now) }
    ensures left { left result ≤ length fragments.now }
{
    match fragments.split_first() {
        Some((_, rest)) => Some(rest),
        None => None,
    }
}

/// What stands in front of the first mark, and what stands behind it, if there is one.
pub(crate) fn split_part<'a>(
    mark: &[u8],
    fragments: &'a [Fragment],
) -> (&'a [Fragment], Option<&'a [Fragment]>)
    ensures parts { parts mark.now (seen_fragments fragments.now)
        ≡ seen_fragments result.0.now ∷ parts_behind mark.now (option_map seen_slice result.1) }
    ensures left { left result.1 ≤ length fragments.now }
{
    let (part, others) = fragments.split_at(part_len(mark, fragments));
    (part, behind_first(others))
}

/// Whether nothing stands behind the last mark.
pub(crate) fn is_end(part: &[Fragment], others: Option<&[Fragment]>) -> bool
    ensures { result ≡ spec.is_end (seen_fragments part.now) (option_map seen_slice others.entry) }
{
    match part.split_first() {
        Some((_, _)) => false,
        None => match others {
            Some(_) => false,
            None => true,
        },
    }
}

fn is_last(fragment: &Fragment, rest: &[Fragment]) -> bool
    ensures { result ≡ spec.is_last (seen_fragment fragment.now) (seen_fragments rest.now) }
{
    match rest.first() {
        Some(next) => { is_mark(b";", fragment) || place_of(fragment).file != place_of(next).file }
        None => true,
    }
}

/// How many fragments stand in the first piece.
fn piece_len(fragments: &[Fragment]) -> usize
    ensures len { result ≡ spec.piece_len (seen_fragments fragments.now) }
    ensures within { result ≤ length fragments.now }
{
    for at in 0..fragments.len() {
        if is_last(&fragments[at], &fragments[at + 1..]) {
            return at + 1;
        }
    }
    fragments.len()
}

/// The first piece, with the semicolon behind it, and what follows.
pub(crate) fn split_piece(fragments: &[Fragment]) -> (&[Fragment], &[Fragment])
    ensures piece { seen_fragments result.0.now
        ≡ take (spec.piece_len (seen_fragments fragments.now)) (seen_fragments fragments.now) }
    ensures shorter { length result.1.now + spec.piece_len (seen_fragments fragments.now)
        ≡ length fragments.now }
    ensures rest { seen_fragments result.1.now
        ≡ drop (spec.piece_len (seen_fragments fragments.now)) (seen_fragments fragments.now) }
{
    fragments.split_at(piece_len(fragments))
}
