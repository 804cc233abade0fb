//! The first part of a parameter list.

ghost use Rattle.std.specs.Prelude.{◌≡◌, false, length};
ghost use Rattle.dy_tree.specs.Fragments.{seen_fragments};
ghost use Rattle.dy_read_shapes.specs.ListParts.{is_key_word, front_word, listed_parts, part_read};
ghost use Rattle.dy_read_shapes.specs.ListParts.{IsPartWithin, IsPartShorter};
ghost use Rattle.dy_read_parts.specs.Nesting.{nesting};

use dy_read_parts::separator::Separator;
use dy_read_types::division::divide;
use dy_read_words::part_word::part_kind;
use dy_tree::{Fragment, PartWord};

/// How a parameter list begins.
#[derive(Clone, Copy, Debug)]
pub enum ListPart<'a> {
    /// A parameter with the mark in front of it, and what stands behind its comma.
    One {
        word: PartWord,
        piece: &'a [Fragment],
        behind: Option<&'a [Fragment]>,
    },
    /// What stands behind `#key`.
    Keys(&'a [Fragment]),
    /// Nothing, where a parameter must stand.
    Nothing,
}

fn is_key(word: PartWord) -> bool
    ensures { result ≡ is_key_word word }
{
    matches!(word, PartWord::Key)
}

/// The parameter in front of the first comma.
fn one_part(word: PartWord, fragments: &[Fragment]) -> ListPart<'_>
    ensures part { word ≡ front_word (seen_fragments fragments.now) → false ≡ is_key_word word
        → listed_parts (seen_fragments fragments.now) ≡ part_read result }
    ensures shorter { IsPartShorter (length fragments.now) result }
    ensures nested { IsPartWithin (nesting (seen_fragments fragments.now)) result }
{
    match divide(Separator::Comma, fragments) {
        Some(division) => ListPart::One {
            word,
            piece: division.piece,
            behind: Some(division.behind),
        },
        None => ListPart::One {
            word,
            piece: fragments,
            behind: None,
        },
    }
}

/// How a parameter list begins that isn't empty.
#[tactic(auto, using(crate::proofs::ListParts::key_read))]
pub fn list_part(fragments: &[Fragment]) -> ListPart<'_>
    ensures part { listed_parts (seen_fragments fragments.now) ≡ part_read result }
    ensures shorter { IsPartShorter (length fragments.now) result }
    ensures nested { IsPartWithin (nesting (seen_fragments fragments.now)) result }
{
    match fragments.split_first() {
        Some((first, rest)) => {
            let word = part_kind(first);
            if is_key(word) {
                ListPart::Keys(rest)
            } else {
                one_part(word, fragments)
            }
        }
        None => ListPart::Nothing,
    }
}
