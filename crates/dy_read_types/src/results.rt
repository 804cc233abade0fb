//! The results of methods.

ghost use Rattle.std.specs.Prelude.{◌≡◌, ℕ, max, IfOk, option_map, codes};
ghost use Rattle.dy_tree.specs.Fragments.{seen_fragments};
ghost use Rattle.dy_rules.specs.Depth.{variables_depth};
ghost use Rattle.dy_rules.specs.Fragments.{items_of};
ghost use Rattle.dy_rules.specs.Signatures as signatures;
ghost use Rattle.dy_rules.specs.TypeReading as reading;
ghost use Rattle.dy_read_types.specs.Endings.{parts_before, last_part};
ghost use Rattle.dy_read_types.specs.VariableFronts as fronts;
ghost use Rattle.dy_read_types.specs.VariableFronts.{read_variable, read_variables};
ghost use Rattle.dy_read_types.specs.VariableFronts.{capped_variable, VariableDepth};
ghost use Rattle.dy_read_types.specs.Results.{read_given, capped_given, read_results};
ghost use Rattle.dy_read_types.specs.Results.{capped_results, seen_front, capped_front, several_in};
ghost use Rattle.dy_read_types.specs.Results.{GivenDepth, ResultsDepth, FrontDepth};

use crate::division::divide;
use crate::variables::{VariableFront, variable_front, variable_items};
use dy_read_parts::front::headed;
use dy_read_parts::separator::{Separator, separates};
use dy_read_words::part_word::marked;
use dy_tree::{Fragment, Results, Variable};
use std::alloc::{AllocError, Global};

/// Results with commas between them, and the rest of them.
#[derive(Drop)]
pub struct Given {
    pub variables: Vec<Variable>,
    pub rest: Option<Variable>,
}

/// Results, where there are any, and what stands behind them.
#[derive(Drop)]
pub struct ResultsFront<'a> {
    pub results: Option<Results>,
    pub rest: &'a [Fragment],
}

/// The variable behind `#rest`.
fn rest_variable(
    alloc: Global,
    fragments: &[Fragment],
    depth: &mut usize,
) -> Result<Option<Variable>, AllocError>
    ensures found { IfOk result
        (λ found. option_map read_variable found
        ≡ option_map capped_variable
        (signatures.rest_variable (items_of (seen_fragments fragments.now)))) }
    ensures depth { IfOk result (λ found. VariableDepth depth.old depth.new found) }
{
    match fragments.split_first() {
        Some((_, behind)) => variable_items(alloc, behind, depth),
        None => Ok(None),
    }
}

/// The last of several results, behind those that were read before it.
fn last_given(
    alloc: Global,
    variables: Vec<Variable>,
    fragments: &[Fragment],
    depth: &mut usize,
) -> Result<Option<Given>, AllocError>
    ensures found { IfOk result
        (λ found. option_map read_given found
        ≡ parts_before (read_variables variables.items)
        (option_map capped_given (last_part
        (reading.marked (codes "#rest")) reading.variable_items signatures.rest_variable
        (seen_fragments fragments.now)))) }
    ensures depth { IfOk result
        (λ found. (outer : ℕ) → depth.old
        ≡ max outer (variables_depth (read_variables variables.items))
        → GivenDepth outer depth.new found) }
{
    if marked(b"#rest", fragments) {
        match rest_variable(alloc, fragments, depth)? {
            Some(variable) => Ok(Some(Given {
                variables,
                rest: Some(variable),
            })),
            None => Ok(None),
        }
    } else {
        match variable_items(alloc, fragments, depth)? {
            Some(variable) => {
                let mut variables = variables;
                variables.push(variable)?;
                Ok(Some(Given {
                    variables,
                    rest: None,
                }))
            }
            None => Ok(None),
        }
    }
}

/// Results with commas between them, and `#rest` with a variable at the end or not.
pub fn give_items(
    alloc: Global,
    fragments: &[Fragment],
    depth: &mut usize,
) -> Result<Option<Given>, AllocError>
    ensures found { IfOk result
        (λ found. option_map read_given found
        ≡ option_map capped_given
        (signatures.give_items (items_of (seen_fragments fragments.now)))) }
    ensures depth { IfOk result (λ found. GivenDepth depth.old depth.new found) }
{
    let mut variables = Vec::new(alloc);
    let mut rest = fragments;
    while let Some(division) = divide(Separator::Comma, rest) {
        match variable_items(alloc, division.piece, depth)? {
            Some(variable) => variables.push(variable)?,
            None => return Ok(None),
        }
        rest = division.behind;
    }
    last_given(alloc, variables, rest, depth)
}

#[tactic(auto, using(crate::proofs::VariableParts::read_each, crate::proofs::VariableParts::read_maybe))]
fn several(given: Option<Given>) -> Option<Results>
    ensures { option_map read_results result
        ≡ option_map signatures.several_given (option_map read_given given) }
{
    match given {
        Some(Given { variables, rest }) => Some(Results::Several { variables, rest }),
        None => None,
    }
}

/// The results that stand between brackets.
fn several_in(
    alloc: Global,
    inner: &[Fragment],
    depth: &mut usize,
) -> Result<Option<Results>, AllocError>
    ensures found { IfOk result
        (λ found. option_map read_results found
        ≡ option_map capped_results (several_in (seen_fragments inner.now))) }
    ensures depth { IfOk result (λ found. ResultsDepth depth.old depth.new found) }
{
    if inner.is_empty() {
        Ok(Some(Results::Several {
            variables: Vec::new(alloc),
            rest: None,
        }))
    } else {
        Ok(several(give_items(alloc, inner, depth)?))
    }
}

fn in_front<'a>(results: Option<Results>, rest: &'a [Fragment]) -> Option<ResultsFront<'a>>
    ensures { option_map seen_front result
        ≡ option_map (signatures.results_in_front (items_of (seen_fragments rest.now)))
        (option_map read_results results) }
{
    match results {
        Some(results) => Some(ResultsFront {
            results: Some(results),
            rest,
        }),
        None => None,
    }
}

/// The one result that stands without brackets.
fn one<'a>(front: Option<VariableFront<'a>>) -> Option<ResultsFront<'a>>
    ensures { option_map seen_front result
        ≡ option_map signatures.variable_result (option_map fronts.seen_front front.entry) }
{
    match front {
        Some(front) => Some(ResultsFront {
            results: Some(Results::One(front.variable)),
            rest: front.rest,
        }),
        None => None,
    }
}

/// The results behind an arrow, and what stands behind them.
fn results_behind<'a>(
    alloc: Global,
    fragments: &'a [Fragment],
    depth: &mut usize,
) -> Result<Option<ResultsFront<'a>>, AllocError>
    ensures front { IfOk result
        (λ found. option_map seen_front found
        ≡ option_map capped_front
        (signatures.results_behind (items_of (seen_fragments fragments.now)))) }
    ensures depth { IfOk result (λ found. FrontDepth depth.old depth.new found) }
{
    match headed(fragments) {
        Some(front) => Ok(in_front(several_in(alloc, front.inner, depth)?, front.rest)),
        None => Ok(one(variable_front(alloc, fragments, depth)?)),
    }
}

/// The results, where an arrow stands in front of them, and what stands behind them.
pub fn results_front<'a>(
    alloc: Global,
    fragments: &'a [Fragment],
    depth: &mut usize,
) -> Result<Option<ResultsFront<'a>>, AllocError>
    ensures front { IfOk result
        (λ found. option_map seen_front found
        ≡ option_map capped_front
        (signatures.results_front (items_of (seen_fragments fragments.now)))) }
    ensures depth { IfOk result (λ found. FrontDepth depth.old depth.new found) }
{
    match fragments.split_first() {
        Some((sign, behind)) if separates(Separator::Arrow, sign) => {
            results_behind(alloc, behind, depth)
        }
        _ => Ok(Some(ResultsFront {
            results: None,
            rest: fragments,
        })),
    }
}
