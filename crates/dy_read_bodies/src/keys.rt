//! Keyword parameters.

ghost use Rattle.std.specs.Prelude.{◌≡◌, ◌≤◌, false, ℕ, max, IfOk, option_map};
ghost use Rattle.dy_tree.specs.Fragments.{seen_fragment, seen_fragments};
ghost use Rattle.dy_rules.specs.Depth.{variable_depth, maybe_depth, keys_depth};
ghost use Rattle.dy_rules.specs.Arguments.{is_comma_fragment};
ghost use Rattle.dy_rules.specs.Cutting.{cut};
ghost use Rattle.dy_rules.specs.Trees.{keys_of};
ghost use Rattle.dy_read_types.specs.Endings.{parts_before, last_part};
ghost use Rattle.dy_rules.specs.Fragments.{items_of};
ghost use Rattle.dy_rules.specs.Signatures as signatures;
ghost use Rattle.dy_read_outers.specs.Grown.{read_grown};
ghost use Rattle.dy_read_parts.specs.Nesting.{nesting};
ghost use Rattle.dy_read_shapes.specs.ReadKeys.{label_token, read_default, capped_default};
ghost use Rattle.dy_read_shapes.specs.ReadKeys.{read_key, read_each_key, capped_key, read_keys};
ghost use Rattle.dy_read_shapes.specs.ReadKeys.{capped_keys, KeyDepth, KeysDepth};
ghost use Rattle.dy_read_shapes.specs.KeyEndings.{keys_tree, keys_last, keys_behind};
ghost use Rattle.dy_read_shapes.specs.ReadKeys as spec;
ghost use Rattle.dy_read_types.specs.VariableFronts.{read_variable};

use crate::expressions::expression;
use dy_read_outers::grown::Grown;
use dy_read_parts::depth::deepen;
use dy_read_parts::separator::Separator;
use dy_read_shapes::initial::{Initial, initial_in};
use dy_read_shapes::keys_read::KeysRead;
use dy_read_shapes::keys_shape::{KeysShape, keys_shape};
use dy_read_types::division::divide;
use dy_read_types::variables::variable_front;
use dy_read_words::alone::token_of;
use dy_read_words::part_word::is_all_keys;
use dy_read_words::role::role_of;
use dy_tree::{Fragment, Key, Role, Splitting, Token, Variable};
use std::alloc::{AllocError, Global};

/// What stands behind the symbol of a key, with that symbol where there is one.
#[derive(Clone, Copy, Debug)]
struct Labelled<'a> {
    label: Option<&'a Token>,
    rest: &'a [Fragment],
}

/// The symbol in front of a key, and what stands behind it.
fn label_in(fragments: &[Fragment]) -> Labelled<'_>
    ensures label { signatures.key_items (items_of (seen_fragments fragments.now))
        ≡ signatures.key_from (label_token result.label)
        (items_of (seen_fragments result.rest.now)) }
    ensures nested { nesting (seen_fragments result.rest.now) ≤ nesting
        (seen_fragments fragments.now) }
{
    match fragments.split_first() {
        Some((first, rest)) => match token_of(first) {
            Some(token) => match role_of(token) {
                Role::Symbol => Labelled {
                    label: Some(token),
                    rest,
                },
                _ => Labelled {
                    label: None,
                    rest: fragments,
                },
            },
            None => Labelled {
                label: None,
                rest: fragments,
            },
        },
        None => Labelled {
            label: None,
            rest: fragments,
        },
    }
}

/// The default value that an expression is.
fn initial_of(value: Option<Grown>) -> Option<Option<Grown>>
    ensures { option_map read_default result
        ≡ option_map signatures.initial_of (option_map read_grown value) }
{
    match value {
        Some(value) => Some(Some(value)),
        None => None,
    }
}

/// The default value behind a variable.
#[cycle(read)]
pub fn initial_items(
    alloc: Global,
    fragments: &[Fragment],
) -> Result<Option<Option<Grown>>, AllocError>
    ensures { IfOk result (λ found. option_map read_default found
        ≡ option_map capped_default
        (signatures.initial_items (items_of (seen_fragments fragments.now)))) }
{
    match initial_in(fragments) {
        Initial::Absent => Ok(Some(None)),
        Initial::Value(value) => Ok(initial_of(expression(alloc, Splitting::Nothing, value)?)),
        Initial::Wrong => Ok(None),
    }
}

/// The symbol of a key.
fn keyword_of(labelled: &Labelled<'_>) -> Result<Option<Token>, AllocError>
    ensures { IfOk result (λ keyword. keyword ≡ label_token labelled.now.label) }
{
    match labelled.label {
        Some(label) => Ok(Some(label.copy()?)),
        None => Ok(None),
    }
}

fn with_default(
    keyword: Option<Token>,
    variable: Variable,
    default: Option<Grown>,
    depth: &mut usize,
) -> Key
    ensures key { read_key result
        ≡ signatures.key_of keyword (read_variable variable) (read_default default) }
    ensures depth { depth.new ≡ max depth.old (maybe_depth (read_default default)) }
{
    match default {
        Some(grown) => {
            deepen(depth, grown.depth);
            Key {
                keyword,
                variable,
                default: Some(Box::into_inner(grown.tree)),
            }
        }
        None => Key {
            keyword,
            variable,
            default: None,
        },
    }
}

/// A key with what was read of its default value.
fn key_of(
    keyword: Option<Token>,
    variable: Variable,
    default: Option<Option<Grown>>,
    depth: &mut usize,
) -> Option<Key>
    ensures key { option_map read_key result
        ≡ option_map (signatures.key_of keyword (read_variable variable))
        (option_map read_default default) }
    ensures depth { (outer : ℕ) → depth.old ≡ max outer (variable_depth (read_variable variable))
        → KeyDepth outer depth.new result }
{
    match default {
        Some(default) => Some(with_default(keyword, variable, default, depth)),
        None => None,
    }
}

/// The key that fragments stand for.
#[cycle(read)]
pub fn key_items(
    alloc: Global,
    fragments: &[Fragment],
    depth: &mut usize,
) -> Result<Option<Key>, AllocError>
    ensures found { IfOk result
        (λ found. option_map read_key found
        ≡ option_map capped_key (signatures.key_items (items_of (seen_fragments fragments.now)))) }
    ensures depth { IfOk result (λ found. KeyDepth depth.old depth.new found) }
{
    let labelled = label_in(fragments);
    let keyword = keyword_of(&labelled)?;
    match variable_front(alloc, labelled.rest, depth)? {
        Some(front) => {
            let default = initial_items(alloc, front.rest)?;
            Ok(key_of(keyword, front.variable, default, depth))
        }
        None => Ok(None),
    }
}

/// The keys with one more.
fn with_key(keys: Vec<Key>, key: Option<Key>) -> Result<Option<KeysRead>, AllocError>
    ensures keys { IfOk result
        (λ found. option_map read_keys found
        ≡ keys_behind (read_each_key keys.items) (option_map read_key key)) }
    ensures depth { IfOk result
        (λ found. (outer old new : ℕ) → KeyDepth old new key
        → old ≡ max outer (keys_depth (keys_of (read_each_key keys.items)))
        → KeysDepth outer new found) }
{
    match key {
        Some(key) => {
            let mut keys = keys;
            keys.push(key)?;
            Ok(Some(KeysRead {
                keys,
                takes_all: false,
            }))
        }
        None => Ok(None),
    }
}

/// The last of several keys, or `#all-keys`.
#[cycle(read)]
#[tactic(auto, using(dy_read_shapes::proofs::Keys::last_all, dy_read_shapes::proofs::Keys::last_one))]
fn last_keys(
    alloc: Global,
    keys: Vec<Key>,
    fragments: &[Fragment],
    depth: &mut usize,
) -> Result<Option<KeysRead>, AllocError>
    ensures found { IfOk result
        (λ found. option_map read_keys found
        ≡ keys_last (read_each_key keys.items) (seen_fragments fragments.now)) }
    ensures depth { IfOk result
        (λ found. (outer : ℕ) → depth.old
        ≡ max outer (keys_depth (keys_of (read_each_key keys.items)))
        → KeysDepth outer depth.new found) }
{
    if is_all_keys(fragments) {
        Ok(Some(KeysRead {
            keys,
            takes_all: true,
        }))
    } else {
        with_key(keys, key_items(alloc, fragments, depth)?)
    }
}

/// Keys with commas between them, and `#all-keys` at the end or not.
#[cycle(read)]
pub fn several_keys(
    alloc: Global,
    fragments: &[Fragment],
    depth: &mut usize,
) -> Result<Option<KeysRead>, AllocError>
    ensures found { IfOk result
        (λ found. option_map read_keys found
        ≡ option_map capped_keys (spec.keys_pieces
        (cut is_comma_fragment false (items_of (seen_fragments fragments.now))))) }
    ensures depth { IfOk result (λ found. KeysDepth depth.old depth.new found) }
{
    let mut keys = Vec::new(alloc);
    let mut rest = fragments;
    while let Some(division) = divide(Separator::Comma, rest) {
        match key_items(alloc, division.piece, depth)? {
            Some(key) => keys.push(key)?,
            None => return Ok(None),
        }
        rest = division.behind;
    }
    last_keys(alloc, keys, rest, depth)
}

/// What stands behind `#key`.
#[cycle(read)]
pub fn keys_from(
    alloc: Global,
    fragments: &[Fragment],
    depth: &mut usize,
) -> Result<Option<KeysRead>, AllocError>
    ensures found { IfOk result
        (λ found. option_map read_keys found
        ≡ option_map capped_keys (spec.keys_behind_mark
        (cut is_comma_fragment false (items_of (seen_fragments fragments.now))))) }
    ensures depth { IfOk result (λ found. KeysDepth depth.old depth.new found) }
{
    match keys_shape(fragments) {
        KeysShape::Bare(takes_all) => Ok(Some(KeysRead {
            keys: Vec::new(alloc),
            takes_all,
        })),
        KeysShape::Wrong => Ok(None),
        KeysShape::One => with_key(Vec::new(alloc), key_items(alloc, fragments, depth)?),
        KeysShape::Several => several_keys(alloc, fragments, depth),
    }
}
