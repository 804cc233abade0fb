//! Literals and names.

ghost use Rattle.std.specs.Prelude.{◌≡◌, ◌++◌, OnOk};
ghost use Rattle.dy_tree.specs.Fragments.{seen_fragments};
ghost use Rattle.dy_rules.specs.SeenForms.{seen_tree};
ghost use Rattle.dy_write_parts.specs.Leaves.{leaf};

use crate::constants::{push_list, push_vector};
use crate::literals::push_literal;
use crate::mark::push_token;
use dy_tree::{Expression, Fragment};
use std::alloc::{AllocError, Global};

/// Adds a literal or a name, and nothing of another expression.
pub fn push_leaf(
    alloc: Global,
    form: &Expression,
    out: &mut Vec<Fragment>,
) -> Result<(), AllocError>
    ensures { OnOk result (seen_fragments out.new.items
        ≡ seen_fragments out.old.items ++ leaf (seen_tree form.now)) }
{
    match form {
        Expression::Literal(literal) => push_literal(out, literal),
        Expression::Name(token) => push_token(out, token.copy()?),
        Expression::List {
            opener,
            items,
            tail,
        } => push_list(alloc, opener, items, tail, out),
        Expression::Vector { opener, items } => push_vector(alloc, opener, items, out),
        _ => Ok(()),
    }
}
