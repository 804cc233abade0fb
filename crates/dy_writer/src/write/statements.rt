//! What stands between the word of a statement and its `end`.

ghost use Rattle.std.specs.Prelude.{◌≡◌, ◌++◌, ◌∷◌, [], map, OnOk};
ghost use Rattle.dy_tree.specs.Fragments.{seen_fragments};
ghost use Rattle.dy_rules.specs.Marks.{in_round};
ghost use Rattle.dy_rules.specs.Trees.{alternatives_of};
ghost use Rattle.dy_rules.specs.Writing.{written, written_alternative, written_alternatives};
ghost use Rattle.dy_rules.specs.SeenForms.{seen_statement, seen_tree};
ghost use Rattle.dy_rules.specs.Held.{held_alternative, held_last};
ghost use Rattle.dy_writer.specs.Plain.{before_body, main_body, behind_body, last_body};

use crate::write::blocks::{push_clauses, push_exit};
use crate::write::bodies::push_body;
use crate::write::choices::{push_arms, push_selector};
use crate::write::expressions::push_whole;
use crate::write::loops::{push_loop_clauses, push_stop};
use crate::write::parameters::push_signature;
use dy_tree::{Alternative, Expression, Fragment, Item, Statement};
use dy_write_parts::breaks::{push_choice_break, push_clause_break};
use dy_write_parts::mark::{push_mark, push_round, push_word};
use std::alloc::{AllocError, Global};

/// Adds what stands before the body of a statement.
#[cycle(write)]
pub fn push_before_body(
    alloc: Global,
    statement: &Statement,
    out: &mut Vec<Fragment>,
) -> Result<(), AllocError>
    ensures { OnOk result (seen_fragments out.new.items
        ≡ seen_fragments out.old.items ++ before_body (seen_statement statement.now)) }
{
    match statement {
        Statement::Begin { .. } | Statement::Case { .. } => Ok(()),
        Statement::If { test, .. } | Statement::Guarded { test, .. } => {
            push_test(alloc, test, out)
        }
        Statement::Select { value, test, .. } => {
            let mut inner = Vec::new(alloc);
            push_whole(alloc, value, &mut inner)?;
            push_selector(alloc, test, &mut inner)?;
            push_round(alloc, out, inner)
        }
        Statement::Block { exit, .. } => push_exit(alloc, exit, out),
        Statement::For { clauses, stop, .. } => {
            let mut inner = Vec::new(alloc);
            push_loop_clauses(alloc, clauses, &mut inner)?;
            push_clause_break(alloc, clauses, stop, &mut inner)?;
            push_stop(alloc, stop, &mut inner)?;
            push_round(alloc, out, inner)
        }
        Statement::Method { parameters, .. } => {
            push_signature(alloc, parameters, out)?;
            push_mark(alloc, out, b";")
        }
    }
}

/// Adds the body of a statement.
#[cycle(write)]
pub fn push_main_body(
    alloc: Global,
    statement: &Statement,
    out: &mut Vec<Fragment>,
) -> Result<(), AllocError>
    ensures { OnOk result (seen_fragments out.new.items
        ≡ seen_fragments out.old.items ++ main_body (seen_statement statement.now)) }
{
    match statement {
        Statement::Begin { body, .. }
        | Statement::Method { body, .. }
        | Statement::If { body, .. }
        | Statement::Guarded { body, .. }
        | Statement::Block { body, .. }
        | Statement::For { body, .. } => push_body(alloc, body, out),
        Statement::Case { .. } | Statement::Select { .. } => Ok(()),
    }
}

/// Adds what stands behind the body of a statement.
#[cycle(write)]
pub fn push_behind_body(
    alloc: Global,
    statement: &Statement,
    out: &mut Vec<Fragment>,
) -> Result<(), AllocError>
    ensures { OnOk result (seen_fragments out.new.items
        ≡ seen_fragments out.old.items ++ behind_body (seen_statement statement.now)) }
{
    match statement {
        Statement::If {
            alternatives,
            otherwise,
            ..
        } => {
            push_alternatives(alloc, alternatives, out)?;
            push_last(alloc, otherwise, b"else", out)
        }
        Statement::Case {
            arms,
            otherwise,
            ..
        }
        | Statement::Select {
            arms,
            otherwise,
            ..
        } => {
            push_arms(alloc, arms, out)?;
            push_choice_break(alloc, arms, otherwise, out)?;
            push_last(alloc, otherwise, b"otherwise", out)
        }
        Statement::Block { clauses, .. } => push_clauses(alloc, clauses, out),
        Statement::For { finally, .. } => push_last(alloc, finally, b"finally", out),
        Statement::Begin { .. } | Statement::Method { .. } | Statement::Guarded { .. } => Ok(()),
    }
}

/// Adds a test in round brackets.
#[cycle(write)]
fn push_test(alloc: Global, test: &Expression, out: &mut Vec<Fragment>) -> Result<(), AllocError>
    ensures { OnOk result (seen_fragments out.new.items
        ≡ seen_fragments out.old.items ++ in_round (written (seen_tree test.now)) ∷ []) }
{
    let mut inner = Vec::new(alloc);
    push_whole(alloc, test, &mut inner)?;
    push_round(alloc, out, inner)
}

#[cycle(write)]
fn push_alternatives(
    alloc: Global,
    alternatives: &Vec<Alternative>,
    out: &mut Vec<Fragment>,
) -> Result<(), AllocError>
    ensures { OnOk result (seen_fragments out.new.items
        ≡ seen_fragments out.old.items
        ++ written_alternatives (alternatives_of (map held_alternative alternatives.now.items))) }
{
    for alternative in alternatives {
        push_alternative(alloc, alternative, out)?;
    }
    Ok(())
}

#[cycle(write)]
fn push_alternative(
    alloc: Global,
    alternative: &Alternative,
    out: &mut Vec<Fragment>,
) -> Result<(), AllocError>
    ensures { OnOk result (seen_fragments out.new.items
        ≡ seen_fragments out.old.items ++ written_alternative (held_alternative alternative.now)) }
{
    push_word(alloc, out, b"elseif")?;
    push_test(alloc, &alternative.test, out)?;
    push_body(alloc, &alternative.body, out)
}

/// Adds the last body of a statement behind its word, if there is one.
#[cycle(write)]
fn push_last(
    alloc: Global,
    body: &Option<Vec<Item>>,
    word: &[u8],
    out: &mut Vec<Fragment>,
) -> Result<(), AllocError>
    ensures { OnOk result (seen_fragments out.new.items
        ≡ seen_fragments out.old.items ++ last_body word.now (held_last body.now)) }
{
    match body {
        Some(body) => {
            push_word(alloc, out, word)?;
            push_body(alloc, body, out)
        }
        None => Ok(()),
    }
}
