//! The marks of parameter lists.

ghost use Rattle.std.specs.Prelude.{◌≡◌};
ghost use Rattle.dy_tree.specs.Fragments.{seen_fragment, seen_fragments};
ghost use Rattle.dy_rules.specs.Fragments.{items_of};
ghost use Rattle.dy_rules.specs.Signatures as signatures;
ghost use Rattle.dy_rules.specs.TypeReading as types;
ghost use Rattle.dy_rules.specs.Types as spec;

use crate::alone::token_alone;
use crate::sign::is_mark;
use dy_tree::{Fragment, PartWord, Token, TokenKind};

fn spelled_part_word(token: &Token) -> PartWord
    ensures { result ≡ spec.spelled_part_word token.now }
{
    if token.is_spelled(b"#next") {
        PartWord::Next
    } else if token.is_spelled(b"#rest") {
        PartWord::Rest
    } else if token.is_spelled(b"#key") {
        PartWord::Key
    } else if token.is_spelled(b"#all-keys") {
        PartWord::AllKeys
    } else {
        PartWord::Absent
    }
}

/// Which of these marks a token is.
pub fn part_word(token: &Token) -> PartWord
    ensures { result ≡ spec.part_word token.now }
{
    match token.kind {
        TokenKind::Mark => spelled_part_word(token),
        _ => PartWord::Absent,
    }
}

/// How a part of a parameter list begins.
pub fn part_kind(fragment: &Fragment) -> PartWord
    ensures { result ≡ signatures.part_kind (seen_fragment fragment.now) }
{
    match fragment {
        Fragment::One(token) => part_word(token),
        Fragment::Group { .. } => PartWord::Absent,
    }
}

/// Whether `#all-keys` stands alone.
#[tactic(auto, using(crate::proofs::Marks::all_keys_alone))]
pub fn is_all_keys(fragments: &[Fragment]) -> bool
    ensures { result ≡ signatures.is_all_keys (seen_fragments fragments.now) }
{
    match token_alone(fragments) {
        Some(mark) => matches!(part_word(mark), PartWord::AllKeys),
        None => false,
    }
}

fn is_marked(text: &[u8], fragment: &Fragment) -> bool
    ensures { result ≡ types.is_marked text.now (seen_fragment fragment.now) }
{
    matches!(fragment, Fragment::One(token) if is_mark(text, token))
}

/// Whether this mark stands in front.
pub fn marked(text: &[u8], fragments: &[Fragment]) -> bool
    ensures { result ≡ types.marked text.now (items_of (seen_fragments fragments.now)) }
{
    match fragments.split_first() {
        Some((first, _)) => is_marked(text, first),
        None => false,
    }
}
