//! How a type begins.

ghost use Rattle.std.specs.Prelude.{◌≡◌, false};
ghost use Rattle.dy_read_parts.specs.Nesting.{nesting};
ghost use Rattle.dy_rules_depth.specs.Capping.{is_absent};
ghost use Rattle.dy_tree.specs.Fragments.{seen_fragment, seen_fragments};
ghost use Rattle.dy_rules.specs.Types as types;
ghost use Rattle.dy_read_types.specs.TypeShapes as spec;

use dy_read_parts::part::{Part, part_of};
use dy_read_words::role::role_of;
use dy_read_words::type_word::type_word;
use dy_tree::{Bracket, Fragment, Role, Token, TypeWord};

/// How a type begins, and what stands behind it.
#[derive(Clone, Copy, Debug)]
pub enum TypeShape<'a> {
    /// No type begins here.
    Nothing,
    Name {
        word: &'a Token,
        rest: &'a [Fragment],
    },
    /// One of the three forms, with what stands between its brackets.
    Form {
        form: TypeWord,
        word: &'a Token,
        inner: &'a [Fragment],
        rest: &'a [Fragment],
    },
}

/// A word with round brackets behind it, which begin `behind` and which `others` stands behind.
fn shape_by<'a>(
    word: &'a Token,
    inner: &'a [Fragment],
    behind: &'a [Fragment],
    others: &'a [Fragment],
) -> TypeShape<'a>
    requires { is_absent word.now ≡ false }
    ensures shape { spec.seen_shape result
        ≡ spec.shape_by (types.type_word word.now) word.now (seen_fragments inner.now)
        (seen_fragments behind.now) (seen_fragments others.now) }
    ensures present { spec.IsPresent (spec.seen_shape result) }
    ensures nested { spec.IsNested (nesting (seen_fragments inner.now)) (spec.seen_shape result) }
{
    let form = type_word(word);
    match form {
        TypeWord::Absent => TypeShape::Name { word, rest: behind },
        TypeWord::Singleton | TypeWord::Union | TypeWord::Limited => TypeShape::Form {
            form,
            word,
            inner,
            rest: others,
        },
    }
}

fn shape_in<'a>(
    bracket: Bracket,
    word: &'a Token,
    inner: &'a [Fragment],
    behind: &'a [Fragment],
    others: &'a [Fragment],
) -> TypeShape<'a>
    requires { is_absent word.now ≡ false }
    ensures shape { spec.seen_shape result
        ≡ spec.shape_in bracket word.now (seen_fragments inner.now) (seen_fragments behind.now)
        (seen_fragments others.now) }
    ensures present { spec.IsPresent (spec.seen_shape result) }
    ensures nested { spec.IsNested (nesting (seen_fragments inner.now)) (spec.seen_shape result) }
{
    match bracket {
        Bracket::Round => shape_by(word, inner, behind, others),
        _ => TypeShape::Name { word, rest: behind },
    }
}

fn shape_from<'a>(word: &'a Token, rest: &'a [Fragment]) -> TypeShape<'a>
    requires { is_absent word.now ≡ false }
    ensures shape { spec.seen_shape result ≡ spec.shape_from word.now (seen_fragments rest.now) }
    ensures present { spec.IsPresent (spec.seen_shape result) }
    ensures shallower { spec.IsShallower (nesting (seen_fragments rest.now))
        (spec.seen_shape result) }
{
    match rest.split_first() {
        None => TypeShape::Name { word, rest },
        Some((second, others)) => match part_of(second) {
            Part::One(_) => TypeShape::Name { word, rest },
            Part::Group { bracket, inner, .. } => shape_in(bracket, word, inner, rest, others),
        },
    }
}

/// How the type at the front of fragments begins.
pub fn type_shape<'a>(fragments: &'a [Fragment]) -> TypeShape<'a>
    ensures shape { spec.seen_shape result ≡ spec.shape_of (seen_fragments fragments.now) }
    ensures present { spec.IsPresent (spec.seen_shape result) }
    ensures shallower { spec.IsShallower (nesting (seen_fragments fragments.now))
        (spec.seen_shape result) }
{
    match fragments.split_first() {
        None => TypeShape::Nothing,
        Some((first, rest)) => match part_of(first) {
            Part::Group { .. } => TypeShape::Nothing,
            Part::One(word) => match role_of(word) {
                Role::Named => shape_from(word, rest),
                _ => TypeShape::Nothing,
            },
        },
    }
}
