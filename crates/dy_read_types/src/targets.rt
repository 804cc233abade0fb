//! The targets of bindings.

ghost use Rattle.std.specs.Prelude.{◌≡◌, ℕ, max, IfOk, option_map, codes};
ghost use Rattle.dy_tree.specs.Fragments.{pack, seen_fragments};
ghost use Rattle.dy_tree.specs.declared.brackets.Bracket.TheVariants as brackets;
ghost use Rattle.dy_rules.specs.Cutting as cutting;
ghost use Rattle.dy_rules.specs.Depth.{variables_depth};
ghost use Rattle.dy_rules.specs.Fragments.{items_of};
ghost use Rattle.dy_rules.specs.TypeReading as reading;
ghost use Rattle.dy_rules.specs.Types.{one_target};
ghost use Rattle.dy_read_types.specs.Endings.{parts_before, last_part};
ghost use Rattle.dy_read_types.specs.VariableFronts.{read_variable, read_variables};
ghost use Rattle.dy_read_types.specs.VariableFronts.{capped_variable, VariableDepth};
ghost use Rattle.dy_read_types.specs.Targets.{read_bound, read_target, capped_bound, capped_target};
ghost use Rattle.dy_read_types.specs.Targets.{target_read, BoundDepth, TargetDepth};

use crate::division::divide;
use crate::variables::variable_items;
use dy_read_parts::front::headed;
use dy_read_parts::names::name_in;
use dy_read_parts::separator::Separator;
use dy_read_words::part_word::marked;
use dy_tree::{Fragment, Target, Variable, Variables};
use std::alloc::{AllocError, Global};

/// The last of several variables, behind those that were read before it.
fn last_bound(
    alloc: Global,
    variables: Vec<Variable>,
    fragments: &[Fragment],
    depth: &mut usize,
) -> Result<Option<Variables>, AllocError>
    ensures found { IfOk result
        (λ found. option_map read_bound found
        ≡ parts_before (read_variables variables.items)
        (option_map capped_bound (last_part
        (reading.marked (codes "#rest")) reading.variable_items reading.name_items
        (seen_fragments fragments.now)))) }
    ensures depth { IfOk result
        (λ found. (outer : ℕ) → depth.old
        ≡ max outer (variables_depth (read_variables variables.items))
        → BoundDepth outer depth.new found) }
{
    if marked(b"#rest", fragments) {
        match name_in(fragments)? {
            Some(name) => Ok(Some(Variables {
                variables,
                rest: Some(name),
            })),
            None => Ok(None),
        }
    } else {
        match variable_items(alloc, fragments, depth)? {
            Some(variable) => {
                let mut variables = variables;
                variables.push(variable)?;
                Ok(Some(Variables {
                    variables,
                    rest: None,
                }))
            }
            None => Ok(None),
        }
    }
}

/// Variables with commas between them, and `#rest` with a name at the end or not.
pub fn bind_items(
    alloc: Global,
    fragments: &[Fragment],
    depth: &mut usize,
) -> Result<Option<Variables>, AllocError>
    ensures found { IfOk result
        (λ found. option_map read_bound found
        ≡ option_map capped_bound (reading.bind_items (items_of (seen_fragments fragments.now)))) }
    ensures depth { IfOk result (λ found. BoundDepth depth.old depth.new found) }
{
    let mut variables = Vec::new(alloc);
    let mut rest = fragments;
    while let Some(division) = divide(Separator::Comma, rest) {
        match variable_items(alloc, division.piece, depth)? {
            Some(variable) => variables.push(variable)?,
            None => return Ok(None),
        }
        rest = division.behind;
    }
    last_bound(alloc, variables, rest, depth)
}

/// The target that is one variable.
fn one(variable: Option<Variable>) -> Option<Target>
    ensures { option_map read_target result
        ≡ option_map one_target (option_map read_variable variable) }
{
    match variable {
        Some(variable) => Some(Target::One(variable)),
        None => None,
    }
}

/// The target that is several variables.
#[tactic(auto, using(crate::proofs::VariableParts::read_each))]
fn several(bound: Option<Variables>) -> Option<Target>
    ensures { option_map read_target result
        ≡ option_map reading.several_of (option_map read_bound bound) }
{
    match bound {
        Some(bound) => Some(Target::Several(bound)),
        None => None,
    }
}

/// The target that round brackets with these fragments between them are.
fn bracketed(
    alloc: Global,
    inner: &[Fragment],
    depth: &mut usize,
) -> Result<Option<Target>, AllocError>
    ensures found { IfOk result
        (λ found. option_map read_target found
        ≡ option_map capped_target
        (reading.target_in brackets.Round (pack (seen_fragments inner.now))
        (reading.bind_items (items_of (seen_fragments inner.now))))) }
    ensures depth { IfOk result (λ found. TargetDepth depth.old depth.new found) }
{
    if inner.is_empty() {
        Ok(Some(Target::Several(Variables {
            variables: Vec::new(alloc),
            rest: None,
        })))
    } else {
        Ok(several(bind_items(alloc, inner, depth)?))
    }
}

/// What stands between the round brackets that fragments are.
fn brackets_alone(fragments: &[Fragment]) -> Option<&[Fragment]>
    ensures { reading.target_items (items_of (seen_fragments fragments.now))
        ≡ target_read (items_of (seen_fragments fragments.now)) result }
{
    match headed(fragments) {
        Some(front) => {
            if front.rest.is_empty() {
                Some(front.inner)
            } else {
                None
            }
        }
        None => None,
    }
}

/// What a binding binds.
pub fn target_items(
    alloc: Global,
    fragments: &[Fragment],
    depth: &mut usize,
) -> Result<Option<Target>, AllocError>
    ensures found { IfOk result
        (λ found. option_map read_target found
        ≡ option_map capped_target
        (reading.target_items (items_of (seen_fragments fragments.now)))) }
    ensures depth { IfOk result (λ found. TargetDepth depth.old depth.new found) }
{
    match brackets_alone(fragments) {
        Some(inner) => bracketed(alloc, inner, depth),
        None => Ok(one(variable_items(alloc, fragments, depth)?)),
    }
}
