//! The clauses of `for`.

ghost use Rattle.std.specs.Prelude.{◌≡◌, ◌++◌, ◌∷◌, [], OnOk};
ghost use Rattle.dy_tree.specs.Fragments.{seen_fragments};
ghost use Rattle.dy_rules.specs.Marks.{word_mark};
ghost use Rattle.dy_rules.specs.TypeWriting.{written_variable};
ghost use Rattle.dy_rules.specs.SeenTypes.{seen_variable};
ghost use Rattle.dy_rules.specs.Writing.{written_for, written_for_clause, written_limit};
ghost use Rattle.dy_rules.specs.Writing.{written_step, written_stop};
ghost use Rattle.dy_rules.specs.SeenForms.{seen_for_clause, seen_initial};
ghost use Rattle.dy_rules.specs.Held.{held_limit, held_stop, held_clauses};

use crate::write::expressions::push_whole;
use dy_tree::{Expression, ForClause, Fragment, Limit, Stop, Variable};
use dy_write_parts::breaks::push_between;
use dy_write_parts::mark::{push_token, push_word};
use dy_write_parts::marks::push_equals;
use dy_write_parts::types::push_variable;
use std::alloc::{AllocError, Global};

/// Adds clauses with commas between them.
#[cycle(write)]
pub fn push_loop_clauses(
    alloc: Global,
    clauses: &Vec<ForClause>,
    out: &mut Vec<Fragment>,
) -> Result<(), AllocError>
    ensures { OnOk result (seen_fragments out.new.items
        ≡ seen_fragments out.old.items ++ written_for (held_clauses clauses.now)) }
{
    let mut first = true;
    for clause in clauses {
        push_between(alloc, out, b",", first)?;
        push_loop_clause(alloc, clause, out)?;
        first = false;
    }
    Ok(())
}

/// Adds a variable and a word behind it.
fn push_variable_and(
    alloc: Global,
    variable: &Variable,
    word: &[u8],
    out: &mut Vec<Fragment>,
) -> Result<(), AllocError>
    ensures { OnOk result (seen_fragments out.new.items
        ≡ seen_fragments out.old.items
        ++ (written_variable (seen_variable variable.now) ++ word_mark word.now ∷ [])) }
{
    push_variable(alloc, variable, out)?;
    push_word(alloc, out, word)
}

#[cycle(write)]
fn push_loop_clause(
    alloc: Global,
    clause: &ForClause,
    out: &mut Vec<Fragment>,
) -> Result<(), AllocError>
    ensures { OnOk result (seen_fragments out.new.items
        ≡ seen_fragments out.old.items ++ written_for_clause (seen_for_clause clause.now)) }
{
    match clause {
        ForClause::Then {
            variable,
            first,
            next,
        } => {
            push_variable(alloc, variable, out)?;
            push_equals(alloc, out)?;
            push_whole(alloc, first, out)?;
            push_word(alloc, out, b"then")?;
            push_whole(alloc, next, out)
        }
        ForClause::In {
            variable,
            collection,
        } => {
            push_variable_and(alloc, variable, b"in", out)?;
            push_whole(alloc, collection, out)
        }
        ForClause::From {
            variable,
            start,
            limit,
            step,
        } => {
            push_variable_and(alloc, variable, b"from", out)?;
            push_whole(alloc, start, out)?;
            push_limit(alloc, limit, out)?;
            push_step(alloc, step, out)
        }
    }
}

#[cycle(write)]
fn push_limit(
    alloc: Global,
    limit: &Option<Limit>,
    out: &mut Vec<Fragment>,
) -> Result<(), AllocError>
    ensures { OnOk result (seen_fragments out.new.items
        ≡ seen_fragments out.old.items ++ written_limit (held_limit limit.now)) }
{
    match limit {
        Some(limit) => {
            push_token(out, limit.word.copy()?)?;
            push_whole(alloc, &limit.bound, out)
        }
        None => Ok(()),
    }
}

#[cycle(write)]
fn push_step(
    alloc: Global,
    step: &Option<Expression>,
    out: &mut Vec<Fragment>,
) -> Result<(), AllocError>
    ensures { OnOk result (seen_fragments out.new.items
        ≡ seen_fragments out.old.items ++ written_step (seen_initial step.now)) }
{
    match step {
        Some(step) => {
            push_word(alloc, out, b"by")?;
            push_whole(alloc, step, out)
        }
        None => Ok(()),
    }
}

/// Adds the test that ends a loop, if there is one.
#[cycle(write)]
pub fn push_stop(
    alloc: Global,
    stop: &Option<Box<Stop>>,
    out: &mut Vec<Fragment>,
) -> Result<(), AllocError>
    ensures { OnOk result (seen_fragments out.new.items
        ≡ seen_fragments out.old.items ++ written_stop (held_stop stop.now)) }
{
    match stop {
        Some(stop) => {
            push_token(out, stop.keyword.copy()?)?;
            push_whole(alloc, &stop.test, out)
        }
        None => Ok(()),
    }
}
