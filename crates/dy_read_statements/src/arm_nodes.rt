//! `case` and `select`, put together from parts that were read.

ghost use Rattle.std.specs.Prelude.{◌≡◌, max, IfOk, option_map};
ghost use Rattle.dy_rules.specs.Depth as measure;
ghost use Rattle.dy_rules.specs.Trees.{maybe_of};
ghost use Rattle.dy_read_arms.specs.Arms.{read_choices};
ghost use Rattle.dy_read_statements.specs.Heads.{read_head};
ghost use Rattle.dy_read_outers.specs.Grown.{read_grown};
ghost use Rattle.dy_read_arms.specs.ReadArms as spec;
ghost use Rattle.dy_read_statements.specs.ReadStatements.{both};

use crate::head::Head;
use crate::statement_nodes::{case_tree, select_tree, statement_within};
use dy_read_arms::choices::Choices;
use dy_read_outers::grown::Grown;
use dy_read_parts::depth::deepest;
use dy_tree::{Expression, Token};
use std::alloc::{AllocError, Global};

fn case_within(alloc: Global, word: &Token, choices: Choices) -> Result<Grown, AllocError>
    ensures { IfOk result (λ grown. read_grown grown
        ≡ spec.capped_case word.now (read_choices choices)) }
{
    let tree = case_tree(word.copy()?, choices.arms, choices.last);
    statement_within(alloc, word, tree, choices.depth)
}

/// A `case` of arms that were read.
pub fn case_with(
    alloc: Global,
    word: &Token,
    choices: Option<Choices>,
) -> Result<Option<Grown>, AllocError>
    ensures { IfOk result (λ found. option_map read_grown found
        ≡ option_map (spec.capped_case word.now) (option_map read_choices choices)) }
{
    match choices {
        Some(choices) => Ok(Some(case_within(alloc, word, choices)?)),
        None => Ok(None),
    }
}

fn boxed_test(test: Option<Grown>, inside: &mut usize) -> Option<Box<Expression>>
    ensures test { spec.read_boxed result ≡ option_map read_grown test }
    ensures depth { inside.new
        ≡ max inside.old (measure.maybe_depth (maybe_of (option_map read_grown test))) }
{
    match test {
        Some(test) => {
            *inside = deepest(*inside, test.depth);
            Some(test.tree)
        }
        None => None,
    }
}

fn select_within(
    alloc: Global,
    word: &Token,
    head: Head,
    choices: Choices,
) -> Result<Grown, AllocError>
    ensures { IfOk result (λ grown. read_grown grown
        ≡ spec.capped_select word.now (read_head head) (read_choices choices)) }
{
    let mut inside = deepest(head.selected.depth, choices.depth);
    let test = boxed_test(head.test, &mut inside);
    let tree = select_tree(
        word.copy()?,
        head.selected.tree,
        test,
        choices.arms,
        choices.last,
    );
    statement_within(alloc, word, tree, inside)
}

/// A `select` of parts that were read.
pub fn select_with(
    alloc: Global,
    word: &Token,
    head: Option<Head>,
    choices: Option<Choices>,
) -> Result<Option<Grown>, AllocError>
    ensures { IfOk result (λ found. option_map read_grown found
        ≡ both (spec.capped_select word.now) (option_map read_head head)
        (option_map read_choices choices)) }
{
    let Some(head) = head else {
        return Ok(None);
    };
    match choices {
        Some(choices) => Ok(Some(select_within(alloc, word, head, choices)?)),
        None => Ok(None),
    }
}
