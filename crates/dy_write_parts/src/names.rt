//! Names that stand in a row.

ghost use Rattle.std.specs.Prelude.{◌≡◌, ◌++◌, map, OnOk};
ghost use Rattle.dy_tree.specs.Fragments.{one, seen_fragments};
ghost use Rattle.dy_rules.specs.FormWriting.{written_names};

use crate::mark::push_token;
use crate::types::push_comma;
use dy_tree::{Fragment, Token};
use std::alloc::{AllocError, Global};

/// Adds names with nothing between them.
pub fn push_adjectives(names: &Vec<Token>, out: &mut Vec<Fragment>) -> Result<(), AllocError>
    ensures { OnOk result (seen_fragments out.new.items
        ≡ seen_fragments out.old.items ++ map one names.now.items) }
{
    for name in names {
        push_token(out, name.copy()?)?;
    }
    Ok(())
}

/// Adds names with commas between them.
pub fn push_names(
    alloc: Global,
    names: &Vec<Token>,
    out: &mut Vec<Fragment>,
) -> Result<(), AllocError>
    ensures { OnOk result (seen_fragments out.new.items
        ≡ seen_fragments out.old.items ++ written_names names.now.items) }
{
    let mut first = true;
    for name in names {
        push_comma(alloc, out, first)?;
        push_token(out, name.copy()?)?;
        first = false;
    }
    Ok(())
}
