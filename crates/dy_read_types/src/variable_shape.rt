//! How a variable begins.

ghost use Rattle.std.specs.Prelude.{◌≡◌, ◌∷◌};
ghost use Rattle.dy_tree.specs.Fragments.{seen_fragment, seen_fragments};
ghost use Rattle.dy_rules.specs.Fragments.{items_of};
ghost use Rattle.dy_rules.specs.Roles as rules;
ghost use Rattle.dy_rules.specs.TypeReading as reading;
ghost use Rattle.dy_read_types.specs.VariableShapes.{variable_read};

use dy_read_parts::mark::is_colons;
use dy_read_words::role::role_of;
use dy_tree::{Fragment, Role, Token};

/// How a variable begins, and what stands behind it.
#[derive(Clone, Copy, Debug)]
pub enum VariableShape<'a> {
    /// No variable begins here.
    Nothing,
    /// A name without a type.
    Plain {
        name: &'a Token,
        rest: &'a [Fragment],
    },
    /// A name and `::`, with what begins with its type.
    Typed {
        name: &'a Token,
        rest: &'a [Fragment],
    },
}

fn shape_from<'a>(name: &'a Token, rest: &'a [Fragment]) -> VariableShape<'a>
    ensures { reading.variable_from name.now (items_of (seen_fragments rest.now))
        ≡ variable_read result }
{
    match rest.split_first() {
        Some((sign, behind)) if is_colons(sign) => VariableShape::Typed { name, rest: behind },
        _ => VariableShape::Plain { name, rest },
    }
}

fn shape_named<'a>(token: &'a Token, rest: &'a [Fragment]) -> VariableShape<'a>
    ensures { reading.variable_named (rules.role_of token.now) token.now
        (items_of (seen_fragments rest.now)) ≡ variable_read result }
{
    match role_of(token) {
        Role::Named => shape_from(token, rest),
        _ => VariableShape::Nothing,
    }
}

fn shape_at<'a>(first: &'a Fragment, rest: &'a [Fragment]) -> VariableShape<'a>
    ensures { reading.variable_front (items_of (seen_fragment first.now ∷ seen_fragments rest.now))
        ≡ variable_read result }
{
    match first {
        Fragment::One(token) => shape_named(token, rest),
        Fragment::Group { .. } => VariableShape::Nothing,
    }
}

/// How the variable at the front of fragments begins.
pub fn variable_shape(fragments: &[Fragment]) -> VariableShape<'_>
    ensures { reading.variable_front (items_of (seen_fragments fragments.now))
        ≡ variable_read result }
{
    match fragments.split_first() {
        Some((first, rest)) => shape_at(first, rest),
        None => VariableShape::Nothing,
    }
}
