//! How an item of a body is divided.

ghost use Rattle.std.specs.Prelude.{◌≡◌, ◌<◌, ◌≤◌, ℕ, option_and_then};
ghost use Rattle.dy_tree.specs.Fragments.{seen_fragment, seen_fragments};
ghost use Rattle.dy_tree.specs.declared.splitters.Splitting.{Splitting};
ghost use Rattle.dy_rules.specs.Bodies as spec;
ghost use Rattle.dy_rules.specs.Cutting.{first_cut};
ghost use Rattle.dy_rules.specs.Fragments.{items_of, found_in};
ghost use Rattle.dy_rules.specs.Signatures.{named_items};
ghost use Rattle.dy_read_shapes.specs.ItemShapes.{shape_read, IsShapeWithin, method_read};
ghost use Rattle.dy_read_shapes.specs.ItemShapes.{IsMethodShallower};
ghost use Rattle.dy_read_parts.specs.Nesting.{group_nesting, nesting};

use dy_read_parts::binding::binds_plainly;
use dy_read_parts::item_front::{ItemFront, front_of_item};
use dy_read_parts::mark::is_handler;
use dy_read_parts::part::{Part, part_of};
use dy_read_parts::sides::{Sides, sides_of_equals};
use dy_tree::{Bracket, Fragment, Keyword, Splitting, Token};

/// How an item of a body is divided.
#[derive(Clone, Copy, Debug)]
pub enum ItemShape<'a> {
    /// No item.
    Nothing,
    /// `let target = assigned`
    Let {
        word: &'a Token,
        target: &'a [Fragment],
        assigned: &'a [Fragment],
    },
    /// `let handler condition = handler`
    Handler {
        word: &'a Token,
        condition: &'a [Fragment],
        handler: &'a [Fragment],
    },
    /// `local method, ..`
    Local {
        word: &'a Token,
        methods: &'a [Fragment],
    },
    Expression(&'a [Fragment]),
}

/// What is bound, by what stands on both sides of its `=`.
fn bound_shape<'a>(word: &'a Token, sides: Sides<'a>) -> ItemShape<'a>
    ensures shape { (words : Splitting)
        → spec.bound_from words word.now (items_of (seen_fragments sides.entry.before.now))
        (items_of (seen_fragments sides.entry.after.now)) ≡ shape_read words result }
    ensures nested { (n : ℕ) → nesting (seen_fragments sides.entry.before.now) ≤ n
        → nesting (seen_fragments sides.entry.after.now) ≤ n → IsShapeWithin n result }
{
    match sides.before.split_first() {
        None => ItemShape::Nothing,
        Some((first, condition)) => {
            if is_handler(first) {
                ItemShape::Handler {
                    word,
                    condition,
                    handler: sides.after,
                }
            } else {
                ItemShape::Let {
                    word,
                    target: sides.before,
                    assigned: sides.after,
                }
            }
        }
    }
}

/// What stands behind a `let`.
fn let_shape<'a>(words: Splitting, word: &'a Token, rest: &'a [Fragment]) -> ItemShape<'a>
    ensures shape { option_and_then (spec.let_sides words word.now)
        (first_cut spec.is_equals_at (items_of (seen_fragments rest.now)))
        ≡ shape_read words result }
    ensures nested { IsShapeWithin (nesting (seen_fragments rest.now)) result }
{
    match sides_of_equals(rest) {
        Some(sides) => {
            if binds_plainly(words, sides.before) {
                bound_shape(word, sides)
            } else {
                ItemShape::Nothing
            }
        }
        None => ItemShape::Nothing,
    }
}

/// How an item of a body is divided.
pub fn item_shape<'a>(words: Splitting, fragments: &'a [Fragment]) -> ItemShape<'a>
    ensures shape { spec.item_items words (items_of (seen_fragments fragments.now))
        ≡ shape_read words result }
    ensures nested { IsShapeWithin (nesting (seen_fragments fragments.now)) result }
{
    match fragments.split_first() {
        None => ItemShape::Nothing,
        Some((first, rest)) => match front_of_item(first) {
            ItemFront::Let(word) => let_shape(words, word, rest),
            ItemFront::Local(word) => ItemShape::Local {
                word,
                methods: rest,
            },
            ItemFront::Other => ItemShape::Expression(fragments),
        },
    }
}

/// A method that stands alone: its word, and what stands between it and its `end`.
#[derive(Clone, Copy, Debug)]
pub struct MethodGroup<'a> {
    pub word: &'a Token,
    pub inner: &'a [Fragment],
}

fn method_in<'a>(
    bracket: Bracket,
    word: &'a Token,
    inner: &'a [Fragment],
) -> Option<MethodGroup<'a>>
    ensures found { spec.method_in bracket word.now
        (named_items (items_of (seen_fragments inner.now))) ≡ method_read result }
    ensures nested { (n : ℕ) → nesting (seen_fragments inner.now) < n → IsMethodShallower n result }
{
    match bracket {
        Bracket::Statement(Keyword::Method) => Some(MethodGroup { word, inner }),
        _ => None,
    }
}

/// The method that a fragment is.
#[tactic(auto, using(crate::proofs::ItemShapes::method_part))]
fn method_at(fragment: &Fragment) -> Option<MethodGroup<'_>>
    ensures found { spec.method_at (seen_fragment fragment.now)
        (found_in (seen_fragment fragment.now)).named_method ≡ method_read result }
    ensures nested { IsMethodShallower (group_nesting (seen_fragment fragment.now)) result }
{
    match part_of(fragment) {
        Part::One(_) => None,
        Part::Group {
            bracket,
            opener,
            inner,
        } => method_in(bracket, opener, inner),
    }
}

/// The method that stands alone.
pub fn method_alone(fragments: &[Fragment]) -> Option<MethodGroup<'_>>
    ensures found { spec.method_alone (items_of (seen_fragments fragments.now))
        ≡ method_read result }
    ensures nested { IsMethodShallower (nesting (seen_fragments fragments.now)) result }
{
    match fragments.split_first() {
        None => None,
        Some((first, rest)) => {
            if rest.is_empty() {
                method_at(first)
            } else {
                None
            }
        }
    }
}
