//! The exit and the clauses of `block`.

ghost use Rattle.std.specs.Prelude.{◌≡◌, ◌++◌, ◌∷◌, [], codes, map, OnOk};
ghost use Rattle.dy_tree.specs.Fragments.{seen_fragments};
ghost use Rattle.dy_rules.specs.Marks.{in_round, word_mark};
ghost use Rattle.dy_rules.specs.Trees.{block_clauses_of};
ghost use Rattle.dy_rules.specs.Writing.{written_caught, written_clause, written_clauses};
ghost use Rattle.dy_rules.specs.Writing.{written_exit};
ghost use Rattle.dy_rules.specs.SeenTypes.{seen_type};
ghost use Rattle.dy_rules.specs.SeenForms.{seen_clause};

use crate::write::bodies::push_body;
use dy_tree::{BlockClause, Fragment, Token, TypeForm};
use dy_write_parts::mark::{push_mark, push_round, push_token, push_word};
use dy_write_parts::types::push_type;
use std::alloc::{AllocError, Global};

/// Adds the name of the exit, in round brackets.
pub fn push_exit(
    alloc: Global,
    exit: &Option<Token>,
    out: &mut Vec<Fragment>,
) -> Result<(), AllocError>
    ensures { OnOk result (seen_fragments out.new.items
        ≡ seen_fragments out.old.items ++ in_round (written_exit exit.now) ∷ []) }
{
    let mut inner = Vec::new(alloc);
    match exit {
        Some(token) => {
            push_token(&mut inner, token.copy()?)?;
            push_round(alloc, out, inner)
        }
        None => push_round(alloc, out, inner),
    }
}

/// Adds what an `exception` catches.
fn push_caught(
    alloc: Global,
    variable: &Option<Token>,
    condition: &TypeForm,
    out: &mut Vec<Fragment>,
) -> Result<(), AllocError>
    ensures { OnOk result (seen_fragments out.new.items
        ≡ seen_fragments out.old.items ++ written_caught variable.now (seen_type condition.now)) }
{
    match variable {
        Some(token) => {
            push_token(out, token.copy()?)?;
            push_mark(alloc, out, b"::")?;
            push_type(alloc, condition, out)
        }
        None => push_type(alloc, condition, out),
    }
}

/// Adds the word of an `exception`, and what it catches in round brackets.
fn push_exception(
    alloc: Global,
    variable: &Option<Token>,
    condition: &TypeForm,
    out: &mut Vec<Fragment>,
) -> Result<(), AllocError>
    ensures { OnOk result (seen_fragments out.new.items
        ≡ seen_fragments out.old.items ++ word_mark (codes "exception")
        ∷ in_round (written_caught variable.now (seen_type condition.now)) ∷ []) }
{
    push_word(alloc, out, b"exception")?;
    let mut inner = Vec::new(alloc);
    push_caught(alloc, variable, condition, &mut inner)?;
    push_round(alloc, out, inner)
}

#[cycle(write)]
pub fn push_clauses(
    alloc: Global,
    clauses: &Vec<BlockClause>,
    out: &mut Vec<Fragment>,
) -> Result<(), AllocError>
    ensures { OnOk result (seen_fragments out.new.items
        ≡ seen_fragments out.old.items
        ++ written_clauses (block_clauses_of (map seen_clause clauses.now.items))) }
{
    for clause in clauses {
        push_clause(alloc, clause, out)?;
    }
    Ok(())
}

#[cycle(write)]
fn push_clause(
    alloc: Global,
    clause: &BlockClause,
    out: &mut Vec<Fragment>,
) -> Result<(), AllocError>
    ensures { OnOk result (seen_fragments out.new.items
        ≡ seen_fragments out.old.items ++ written_clause (seen_clause clause.now)) }
{
    match clause {
        BlockClause::Afterwards { body } => {
            push_word(alloc, out, b"afterwards")?;
            push_body(alloc, body, out)
        }
        BlockClause::Cleanup { body } => {
            push_word(alloc, out, b"cleanup")?;
            push_body(alloc, body, out)
        }
        BlockClause::Exception {
            variable,
            condition,
            body,
        } => {
            push_exception(alloc, variable, condition, out)?;
            push_body(alloc, body, out)
        }
    }
}
