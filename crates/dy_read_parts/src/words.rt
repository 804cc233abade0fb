//! The adjectives of definitions and of slots, and the word behind them.

ghost use Rattle.std.specs.Prelude.{◌≡◌, IfOk, option_map};
ghost use Rattle.dy_tree.specs.Fragments.{seen_fragments};
ghost use Rattle.dy_rules.specs.Fragments.{items_of};
ghost use Rattle.dy_rules.specs.FormReading.{words_front};
ghost use Rattle.dy_read_parts.specs.WordsFront.{is_wanted, seen_words};

use dy_read_words::alone::token_of;
use dy_read_words::define_word::is_definition_word;
use dy_read_words::slot_word::is_slot_word;
use dy_tree::{Fragment, Token};
use std::alloc::{AllocError, Global};

/// Which word ends the adjectives.
#[derive(Clone, Copy, Debug, PartialEq, Eq)]
pub enum Wanted {
    /// One that says what is defined.
    Definition,
    /// `slot`
    Slot,
}

/// The adjectives, the word behind them, and what stands behind that.
#[derive(Debug, Drop)]
pub struct WordsFront<'a> {
    pub adjectives: Vec<Token>,
    pub token: &'a Token,
    pub rest: &'a [Fragment],
}

fn is_wanted(wanted: Wanted, token: &Token) -> bool
    ensures { result ≡ is_wanted wanted token.now }
{
    match wanted {
        Wanted::Definition => is_definition_word(token),
        Wanted::Slot => is_slot_word(token),
    }
}

/// The adjectives in front of the first word that is wanted. They may be any tokens.
pub fn words_front(
    alloc: Global,
    wanted: Wanted,
    fragments: &[Fragment],
) -> Result<Option<WordsFront<'_>>, AllocError>
    ensures { IfOk result (λ found. option_map seen_words found
        ≡ words_front (is_wanted wanted) (items_of (seen_fragments fragments.now))) }
{
    let mut adjectives = Vec::new(alloc);
    let mut rest = fragments;
    while let Some((first, behind)) = rest.split_first() {
        match token_of(first) {
            Some(token) if is_wanted(wanted, token) => {
                return Ok(Some(WordsFront {
                    adjectives,
                    token,
                    rest: behind,
                }));
            }
            Some(token) => adjectives.push(token.copy()?)?,
            None => return Ok(None),
        }
        rest = behind;
    }
    Ok(None)
}
