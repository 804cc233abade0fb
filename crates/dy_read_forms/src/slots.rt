//! Slots of classes, and their options.

ghost use Rattle.std.specs.Prelude.{◌≡◌, max, true, IfOk, option_map, map};
ghost use Rattle.dy_tree.specs.Fragments.{seen_fragments};
ghost use Rattle.dy_rules.specs.Cutting.{each_other};
ghost use Rattle.dy_rules.specs.Definitions.{suit_slot};
ghost use Rattle.dy_rules.specs.Fragments.{items_of};
ghost use Rattle.dy_rules.specs.FormReading as reading;
ghost use Rattle.dy_read_parts.specs.Cut.{seen_piece};
ghost use Rattle.dy_read_outers.specs.Grown.{read_grown};
ghost use Rattle.dy_read_forms.specs.ReadForms.{written_slot, read_initial, read_option};
ghost use Rattle.dy_read_forms.specs.ReadForms.{options_in, read_slot, slots_in, capped_option};
ghost use Rattle.dy_read_forms.specs.ReadForms.{capped_slot, OptionDepth, OptionsDepth, SlotDepth};
ghost use Rattle.dy_read_forms.specs.ReadForms.{SlotsDepth};
ghost use Rattle.dy_read_forms.specs.ReadForms.{InitialDepth};
ghost use Rattle.dy_read_shapes.specs.ReadKeys.{read_default};
ghost use Rattle.dy_rules_depth.specs.Capping.{capping};
ghost use Rattle.dy_rules_depth.specs.Changes.{changed_maybe};
ghost use Rattle.dy_rules.specs.Signatures as signatures;
ghost use Rattle.dy_read_types.specs.VariableFronts.{read_variable};
ghost use Rattle.dy_read_parts.specs.WordsFront.{seen_words};

use dy_read_bodies::expressions::expression;
use dy_read_bodies::keys::initial_items;
use dy_read_outers::grown::Grown;
use dy_read_parts::depth::deepen;
use dy_read_parts::names::{setter_in, symbol_in};
use dy_read_parts::pieces::{Piece, cut};
use dy_read_parts::separator::Separator;
use dy_read_parts::words::{Wanted, WordsFront, words_front};
use dy_read_types::variables::variable_front;
use dy_read_words::alone::token_of;
use dy_read_words::option_word::option_word;
use dy_read_words::slot::is_consistent;
use dy_read_words::slot_word::suit_slot;
use dy_tree::{Expression, Fragment, OptionWord, Slot, SlotOption, Splitting, Token, Variable};
use std::alloc::{AllocError, Global};

fn init_keyword(found: Option<Token>) -> Option<SlotOption>
    ensures { option_map read_option result ≡ option_map reading.keyword_of found }
{
    match found {
        Some(token) => Some(SlotOption::InitKeyword(token)),
        None => None,
    }
}

fn required_init_keyword(found: Option<Token>) -> Option<SlotOption>
    ensures { option_map read_option result ≡ option_map reading.required_of found }
{
    match found {
        Some(token) => Some(SlotOption::RequiredInitKeyword(token)),
        None => None,
    }
}

fn init_value(found: Option<Grown>, depth: &mut usize) -> Option<SlotOption>
    ensures found { option_map read_option result
        ≡ option_map reading.value_of (option_map read_grown found) }
    ensures depth { OptionDepth depth.old depth.new result }
{
    match found {
        Some(grown) => {
            deepen(depth, grown.depth);
            Some(SlotOption::InitValue(Box::into_inner(grown.tree)))
        }
        None => None,
    }
}

fn init_function(found: Option<Grown>, depth: &mut usize) -> Option<SlotOption>
    ensures found { option_map read_option result
        ≡ option_map reading.function_of (option_map read_grown found) }
    ensures depth { OptionDepth depth.old depth.new result }
{
    match found {
        Some(grown) => {
            deepen(depth, grown.depth);
            Some(SlotOption::InitFunction(Box::into_inner(grown.tree)))
        }
        None => None,
    }
}

/// The option that stands behind its word.
#[tactic(auto, using(crate::proofs::SlotParts::value_through, crate::proofs::SlotParts::function_through))]
fn option_by(
    alloc: Global,
    word: OptionWord,
    rest: &[Fragment],
    depth: &mut usize,
) -> Result<Option<SlotOption>, AllocError>
    ensures found { IfOk result
        (λ found. option_map read_option found
        ≡ option_map capped_option (reading.option_by word (items_of (seen_fragments rest.now)))) }
    ensures depth { IfOk result (λ found. OptionDepth depth.old depth.new found) }
{
    match word {
        OptionWord::Keyword => Ok(init_keyword(symbol_in(rest)?)),
        OptionWord::Required => Ok(required_init_keyword(symbol_in(rest)?)),
        OptionWord::Value => Ok(init_value(expression(alloc, Splitting::Nothing, rest)?, depth)),
        OptionWord::Function => Ok(init_function(
            expression(alloc, Splitting::Nothing, rest)?,
            depth,
        )),
        OptionWord::Setter => setter_in(rest),
        OptionWord::Absent => Ok(None),
    }
}

/// An option of a slot.
fn option_items(
    alloc: Global,
    fragments: &[Fragment],
    depth: &mut usize,
) -> Result<Option<SlotOption>, AllocError>
    ensures found { IfOk result
        (λ found. option_map read_option found
        ≡ option_map capped_option
        (reading.option_items (items_of (seen_fragments fragments.now)))) }
    ensures depth { IfOk result (λ found. OptionDepth depth.old depth.new found) }
{
    match fragments.split_first() {
        Some((Fragment::One(word), rest)) => option_by(alloc, option_word(word), rest, depth),
        _ => Ok(None),
    }
}

/// The options of a slot, each behind a comma.
fn options_in(
    alloc: Global,
    pieces: &[Piece],
    depth: &mut usize,
) -> Result<Option<Vec<SlotOption>>, AllocError>
    ensures found { IfOk result
        (λ found. option_map options_in found
        ≡ option_map (map capped_option)
        (each_other reading.option_items (map seen_piece pieces.now))) }
    ensures depth { IfOk result (λ found. OptionsDepth depth.old depth.new found) }
{
    let mut options = Vec::new(alloc);
    for piece in pieces {
        match option_items(alloc, piece.fragments, depth)? {
            Some(option) => options.push(option)?,
            None => return Ok(None),
        }
    }
    Ok(Some(options))
}

/// A default value by itself.
fn opened(found: Option<Option<Grown>>, depth: &mut usize) -> Option<Option<Expression>>
    ensures found { option_map read_initial result ≡ option_map read_default found }
    ensures depth { InitialDepth depth.old depth.new result }
{
    match found {
        Some(Some(grown)) => {
            deepen(depth, grown.depth);
            Some(Some(Box::into_inner(grown.tree)))
        }
        Some(None) => Some(None),
        None => None,
    }
}

/// The default value behind a variable.
fn initial(
    alloc: Global,
    fragments: &[Fragment],
    depth: &mut usize,
) -> Result<Option<Option<Expression>>, AllocError>
    ensures found { IfOk result
        (λ found. option_map read_initial found
        ≡ option_map (changed_maybe capping)
        (signatures.initial_items (items_of (seen_fragments fragments.now)))) }
    ensures depth { IfOk result (λ found. InitialDepth depth.old depth.new found) }
{
    let found = initial_items(alloc, fragments)?;
    Ok(opened(found, depth))
}

/// A slot with its value, where that is one.
fn slot_of(
    adjectives: Vec<Token>,
    options: Vec<SlotOption>,
    variable: Variable,
    value: Option<Option<Expression>>,
) -> Option<Slot>
    ensures { option_map read_slot result
        ≡ option_map (reading.slot_of adjectives.items (options_in options)
        (read_variable variable)) (option_map read_initial value) }
{
    match value {
        Some(value) => Some(Slot {
            adjectives,
            name: variable.name,
            declared: variable.declared,
            value,
            options,
        }),
        None => None,
    }
}

/// A slot with its adjectives and its options.
fn slot_front(
    alloc: Global,
    words: WordsFront,
    pieces: &[Piece],
    depth: &mut usize,
) -> Result<Option<Slot>, AllocError>
    requires { suit_slot words.adjectives.items ≡ true }
    ensures found { IfOk result
        (λ found. option_map read_slot found
        ≡ option_map capped_slot (reading.slot_front
        (each_other reading.option_items (map seen_piece pieces.now)) (seen_words words.entry))) }
    ensures depth { IfOk result (λ found. SlotDepth depth.old depth.new found) }
{
    match options_in(alloc, pieces, depth)? {
        Some(options) => match variable_front(alloc, words.rest, depth)? {
            Some(front) => {
                let value = initial(alloc, front.rest, depth)?;
                Ok(slot_of(words.adjectives, options, front.variable, value))
            }
            None => Ok(None),
        },
        None => Ok(None),
    }
}

/// A slot, whose parts need not fit together.
fn slot_pieces(
    alloc: Global,
    fragments: &[Fragment],
    depth: &mut usize,
) -> Result<Option<Slot>, AllocError>
    ensures found { IfOk result
        (λ found. option_map read_slot found
        ≡ option_map capped_slot (written_slot (seen_fragments fragments.now))) }
    ensures depth { IfOk result (λ found. SlotDepth depth.old depth.new found) }
{
    let pieces = cut(alloc, Separator::Comma, false, fragments)?;
    match words_front(alloc, Wanted::Slot, pieces.first)? {
        Some(words) => {
            if suit_slot(&words.adjectives) {
                slot_front(alloc, words, &pieces.others, depth)
            } else {
                Ok(None)
            }
        }
        None => Ok(None),
    }
}

/// A slot.
#[tactic(auto, using(crate::proofs::SlotParts::consistent_read, crate::proofs::SlotParts::inconsistent_read, crate::proofs::SlotParts::unwritten_read))]
fn slot_items(
    alloc: Global,
    fragments: &[Fragment],
    depth: &mut usize,
) -> Result<Option<Slot>, AllocError>
    ensures found { IfOk result
        (λ found. option_map read_slot found
        ≡ option_map capped_slot (reading.slot_items (items_of (seen_fragments fragments.now)))) }
    ensures depth { IfOk result (λ found. SlotDepth depth.old depth.new found) }
{
    match slot_pieces(alloc, fragments, depth)? {
        Some(slot) => {
            if is_consistent(&slot) {
                Ok(Some(slot))
            } else {
                Ok(None)
            }
        }
        None => Ok(None),
    }
}

/// The slots of a class, each with a semicolon behind it.
#[tactic(auto, using(crate::proofs::SlotParts::slots_ended))]
pub(crate) fn slots_items(
    alloc: Global,
    fragments: &[Fragment],
    depth: &mut usize,
) -> Result<Option<Vec<Slot>>, AllocError>
    ensures found { IfOk result
        (λ found. option_map slots_in found
        ≡ option_map (map capped_slot)
        (reading.slots_items (items_of (seen_fragments fragments.now)))) }
    ensures depth { IfOk result (λ found. SlotsDepth depth.old depth.new found) }
{
    let pieces = cut(alloc, Separator::Semicolon, false, fragments)?;
    let mut slots = Vec::new(alloc);
    let mut first = pieces.first;
    for piece in &pieces.others {
        match slot_items(alloc, first, depth)? {
            Some(slot) => slots.push(slot)?,
            None => return Ok(None),
        }
        first = piece.fragments;
    }
    if first.is_empty() {
        Ok(Some(slots))
    } else {
        Ok(None)
    }
}
