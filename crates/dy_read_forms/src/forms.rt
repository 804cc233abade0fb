//! Whole forms.

ghost use Rattle.std.specs.Prelude.{◌≡◌, nat_lt, IfOk, option_map};
ghost use Rattle.dy_tree.specs.Fragments.{seen_fragments};
ghost use Rattle.dy_rules.specs.FormReading as reading;
ghost use Rattle.dy_rules.specs.FormReading.{form_of};
ghost use Rattle.dy_read_outers.specs.Grown.{read_grown};
ghost use Rattle.dy_read_forms.specs.ReadDefinitions.{read_found};
ghost use Rattle.dy_read_forms.specs.ReadForms.{capped_form};
ghost use Rattle.dy_read_parts.specs.WordsFront.{seen_words};

use crate::definitions::{class, constant, domain, function, generic, method, variable};
use crate::form_read::FormRead;
use dy_read_bodies::expressions::expression;
use dy_read_outers::grown::Grown;
use dy_read_parts::depth::DEPTH_LIMIT;
use dy_read_parts::form_front::{FormFront, form_front};
use dy_read_parts::words::{Wanted, WordsFront, words_front};
use dy_read_words::adjective::{
    suit_binding, suit_class, suit_domain, suit_function, suit_generic, suit_method,
};
use dy_read_words::define_word::define_word_of;
use dy_tree::{DefineWord, Form, Fragment, Splitting, Token};
use std::alloc::{AllocError, Global};

/// An expression as a form.
fn expression_form(found: Option<Grown>) -> Option<FormRead>
    ensures { option_map read_found result
        ≡ option_map reading.expression_of_form (option_map read_grown found) }
{
    match found {
        Some(grown) => Some(FormRead {
            form: Form::Expression(Box::into_inner(grown.tree)),
            is_deep: grown.depth > DEPTH_LIMIT,
        }),
        None => None,
    }
}

/// A definition with an `end`.
fn ended(alloc: Global, define: &Token, words: WordsFront) -> Result<Option<FormRead>, AllocError>
    ensures { IfOk result (λ found. option_map read_found found
        ≡ option_map capped_form (reading.ended_definition define.now (seen_words words.entry))) }
{
    match define_word_of(words.token) {
        DefineWord::Class => {
            if suit_class(&words.adjectives) {
                class(alloc, define, words.adjectives, words.rest)
            } else {
                Ok(None)
            }
        }
        DefineWord::Method => {
            if suit_method(&words.adjectives) {
                method(alloc, define, words.adjectives, words.token, words.rest)
            } else {
                Ok(None)
            }
        }
        DefineWord::Function => {
            if suit_function(&words.adjectives) {
                function(alloc, define, words.adjectives, words.rest)
            } else {
                Ok(None)
            }
        }
        _ => Ok(None),
    }
}

/// A definition without an `end`.
fn flat(alloc: Global, define: &Token, words: WordsFront) -> Result<Option<FormRead>, AllocError>
    ensures { IfOk result (λ found. option_map read_found found
        ≡ option_map capped_form (reading.flat_definition define.now (seen_words words.entry))) }
{
    match define_word_of(words.token) {
        DefineWord::Constant => {
            if suit_binding(&words.adjectives) {
                constant(alloc, define, words.rest)
            } else {
                Ok(None)
            }
        }
        DefineWord::Variable => {
            if suit_binding(&words.adjectives) {
                variable(alloc, define, words.rest)
            } else {
                Ok(None)
            }
        }
        DefineWord::Generic => {
            if suit_generic(&words.adjectives) {
                generic(alloc, define, words.adjectives, words.rest)
            } else {
                Ok(None)
            }
        }
        DefineWord::Domain => {
            if suit_domain(&words.adjectives) {
                domain(alloc, define, words.rest)
            } else {
                Ok(None)
            }
        }
        _ => Ok(None),
    }
}

/// The form that fragments stand for, and whether it is deeper than the limit. Where a tree in it is
/// deeper, a leaf that no text stands for is in its place.
#[tactic(auto, using(dy_read_parts::proofs::Fronts::items_inside, crate::proofs::FormParts::expression_through))]
pub fn form(alloc: Global, fragments: &[Fragment]) -> Result<Option<FormRead>, AllocError>
    ensures { IfOk result (λ found. option_map read_found found
        ≡ option_map capped_form (form_of (seen_fragments fragments.now))) }
{
    match form_front(fragments) {
        FormFront::Expression => Ok(expression_form(expression(
            alloc,
            Splitting::Nothing,
            fragments,
        )?)),
        FormFront::Group { define, inner } => {
            match words_front(alloc, Wanted::Definition, inner)? {
                Some(words) => ended(alloc, define, words),
                None => Ok(None),
            }
        }
        FormFront::Flat { define, rest } => match words_front(alloc, Wanted::Definition, rest)? {
            Some(words) => flat(alloc, define, words),
            None => Ok(None),
        },
    }
}
