//! What stands between parts.

ghost use Rattle.std.specs.Prelude.{◌≡◌, ◌++◌, OnOk};
ghost use Rattle.dy_tree.specs.Fragments.{seen_fragments};
ghost use Rattle.dy_rules.specs.Held.{held_arms, held_last, held_clauses, held_stop};
ghost use Rattle.dy_write_parts.specs.Joined.{mark_unless};
ghost use Rattle.dy_write_parts.specs.Breaks.{choice_break, clause_break};

use crate::mark::push_mark;
use dy_tree::{Arm, ForClause, Fragment, Item, Stop};
use std::alloc::{AllocError, Global};

/// Adds a mark, unless what comes is the first part.
pub fn push_between(
    alloc: Global,
    out: &mut Vec<Fragment>,
    mark: &[u8],
    first: bool,
) -> Result<(), AllocError>
    ensures { OnOk result (seen_fragments out.new.items
        ≡ seen_fragments out.old.items ++ mark_unless mark.now first) }
{
    if first {
        Ok(())
    } else {
        push_mark(alloc, out, mark)
    }
}

/// Adds the semicolon between arms and what is evaluated otherwise, if there are both.
pub fn push_choice_break(
    alloc: Global,
    arms: &Vec<Arm>,
    otherwise: &Option<Vec<Item>>,
    out: &mut Vec<Fragment>,
) -> Result<(), AllocError>
    ensures { OnOk result (seen_fragments out.new.items
        ≡ seen_fragments out.old.items
        ++ choice_break (held_arms arms.now) (held_last otherwise.now)) }
{
    if arms.is_empty() {
        return Ok(());
    }
    match otherwise {
        None => Ok(()),
        Some(_) => push_mark(alloc, out, b";"),
    }
}

/// Adds the comma between the clauses of a loop and the test that ends it, if there are both.
pub fn push_clause_break(
    alloc: Global,
    clauses: &Vec<ForClause>,
    stop: &Option<Box<Stop>>,
    out: &mut Vec<Fragment>,
) -> Result<(), AllocError>
    ensures { OnOk result (seen_fragments out.new.items
        ≡ seen_fragments out.old.items
        ++ clause_break (held_clauses clauses.now) (held_stop stop.now)) }
{
    if clauses.is_empty() {
        return Ok(());
    }
    match stop {
        None => Ok(()),
        Some(_) => push_mark(alloc, out, b","),
    }
}
