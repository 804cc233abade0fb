//! The arms of a `case` or a `select`, put together from the last one on.

ghost use Rattle.std.specs.Prelude.{◌≡◌, true, max, reverse, IfOk, option_map, option_and_then};
ghost use Rattle.dy_rules.specs.Choices as choices;
ghost use Rattle.dy_rules.specs.Depth as measure;
ghost use Rattle.dy_rules.specs.Productions.{suits};
ghost use Rattle.dy_rules.specs.Trees as trees;
ghost use Rattle.dy_read_arms.specs.Arms.{read_behind, read_choices};
ghost use Rattle.dy_read_arms.specs.ReadArms as spec;
ghost use Rattle.dy_read_arms.specs.ReadBodies.{read_item, read_items, read_list};
ghost use Rattle.dy_read_arms.specs.BodyDepths.{ItemDepth};

use crate::choices::{Choices, ChoicesBehind};
use dy_read_parts::depth::deepest;
use dy_tree::{Arm, Expression, Item};
use std::alloc::{AllocError, Global};

/// What is read behind the last piece.
pub fn none_behind(alloc: Global) -> ChoicesBehind
    ensures { read_behind result ≡ choices.no_choices }
{
    ChoicesBehind {
        lead: Vec::new(alloc),
        arms: Vec::new(alloc),
        last: None,
        depth: 0,
    }
}

/// No arms.
pub fn no_choices(alloc: Global) -> Choices
    ensures { read_choices result ≡ choices.no_choices }
{
    Choices {
        arms: Vec::new(alloc),
        last: None,
        depth: 0,
    }
}

#[tactic(auto, using(crate::proofs::ArmsBehind::lead_put))]
fn item_before(
    behind: ChoicesBehind,
    item: Item,
    inside: usize,
) -> Result<ChoicesBehind, AllocError>
    requires { inside ≡ measure.item_depth (read_item item) }
    ensures { IfOk result (λ next. read_behind next
        ≡ choices.with_lead (read_behind behind) (read_item item)) }
{
    let depth = deepest(behind.depth, inside);
    let mut lead = behind.lead;
    lead.push(item)?;
    Ok(ChoicesBehind {
        lead,
        arms: behind.arms,
        last: behind.last,
        depth,
    })
}

/// An item of the arm that began before.
pub fn with_item(
    behind: ChoicesBehind,
    item: Option<Item>,
    inside: usize,
) -> Result<Option<ChoicesBehind>, AllocError>
    requires { ItemDepth 0 inside item }
    ensures { IfOk result (λ found. option_map read_behind found
        ≡ option_map (choices.with_lead (read_behind behind)) (option_map read_item item)) }
{
    match item {
        Some(item) => Ok(Some(item_before(behind, item, inside)?)),
        None => Ok(None),
    }
}

/// A body of the item behind an arrow and of the items behind that, which stand in `lead`, the last
/// one first.
#[tactic(auto, using(crate::proofs::ArmsBehind::lead_more))]
fn body_before(lead: Vec<Item>, first: Option<Item>) -> Result<Option<Vec<Item>>, AllocError>
    ensures { IfOk result (λ found. option_map read_items found
        ≡ spec.body_before (read_list (reverse lead.items)) (spec.read_first first)) }
{
    match first {
        Some(item) => {
            let mut body = lead;
            body.push(item)?;
            body.reverse();
            Ok(Some(body))
        }
        None => {
            if lead.is_empty() {
                Ok(Some(lead))
            } else {
                Ok(None)
            }
        }
    }
}

/// Whether there are as many tests as an arm may have.
#[tactic(auto, using(crate::proofs::ArmParts::suits_is))]
fn suit(single: bool, tests: &Vec<Expression>) -> bool
    ensures { result ≡ suits single (spec.read_tests tests.now) }
{
    !single || tests.as_slice().len() == 1
}

#[tactic(auto, using(crate::proofs::ArmsBehind::arm_put))]
fn arm_before(
    alloc: Global,
    behind: ChoicesBehind,
    tests: Vec<Expression>,
    first: Option<Item>,
    inside: usize,
) -> Result<Option<ChoicesBehind>, AllocError>
    requires { inside ≡ max (measure.tests_depth (trees.tests_of (spec.read_tests tests)))
        (spec.first_depth (spec.read_first first)) }
    ensures { IfOk result (λ found. option_map read_behind found
        ≡ option_map (choices.arm_of (spec.read_tests tests) (read_behind behind).arms
        (read_behind behind).last)
        (spec.body_before (read_behind behind).lead (spec.read_first first))) }
{
    let depth = deepest(behind.depth, inside);
    match body_before(behind.lead, first)? {
        Some(body) => {
            let mut arms = behind.arms;
            arms.push(Arm { tests, body })?;
            Ok(Some(ChoicesBehind {
                lead: Vec::new(alloc),
                arms,
                last: behind.last,
                depth,
            }))
        }
        None => Ok(None),
    }
}

/// An arm, with the item behind its arrow.
pub fn with_arm(
    alloc: Global,
    single: bool,
    behind: ChoicesBehind,
    tests: Option<Vec<Expression>>,
    first: Option<Option<Item>>,
    inside: usize,
) -> Result<Option<ChoicesBehind>, AllocError>
    requires { spec.ArmDepth inside tests first }
    ensures { IfOk result (λ found. option_map read_behind found
        ≡ spec.arm_read single (read_behind behind) (option_map spec.read_tests tests)
        (option_map spec.read_first first)) }
{
    let Some(tests) = tests else {
        return Ok(None);
    };
    let Some(first) = first else {
        return Ok(None);
    };
    if suit(single, &tests) {
        arm_before(alloc, behind, tests, first, inside)
    } else {
        Ok(None)
    }
}

/// Whether neither an arm nor an `otherwise` was read.
#[tactic(auto, using(crate::proofs::ArmParts::ends_is))]
fn ends(behind: &ChoicesBehind) -> bool
    ensures { result ≡ spec.ends (read_behind behind.now) }
{
    behind.arms.as_slice().is_empty() && behind.last.is_none()
}

/// A body behind all arms, where it may stand there.
fn last_body(alloc: Global, alone: bool, body: Vec<Item>, depth: usize) -> Option<ChoicesBehind>
    requires { alone ≡ true → depth ≡ measure.body_depth (trees.body_of (read_items body)) }
    ensures { option_map read_behind result ≡ spec.last_if alone (read_items body) }
{
    if alone {
        Some(ChoicesBehind {
            lead: Vec::new(alloc),
            arms: Vec::new(alloc),
            last: Some(body),
            depth,
        })
    } else {
        None
    }
}

/// The items of the arm that began before.
fn lead_of(behind: ChoicesBehind) -> Vec<Item>
    ensures { result ≡ behind.lead }
{
    behind.lead
}

fn last_before(
    alloc: Global,
    behind: ChoicesBehind,
    first: Option<Item>,
    inside: usize,
) -> Result<Option<ChoicesBehind>, AllocError>
    requires { inside ≡ spec.first_depth (spec.read_first first) }
    ensures { IfOk result (λ found. option_map read_behind found
        ≡ choices.last_with (read_behind behind).arms (read_behind behind).last
        (spec.body_before (read_behind behind).lead (spec.read_first first))) }
{
    let alone = ends(&behind);
    let depth = deepest(behind.depth, inside);
    match body_before(lead_of(behind), first)? {
        Some(body) => Ok(last_body(alloc, alone, body, depth)),
        None => Ok(None),
    }
}

/// The `otherwise`, with the item behind it.
pub fn with_last(
    alloc: Global,
    behind: ChoicesBehind,
    first: Option<Option<Item>>,
    inside: usize,
) -> Result<Option<ChoicesBehind>, AllocError>
    requires { spec.FirstDepth 0 inside first }
    ensures { IfOk result (λ found. option_map read_behind found
        ≡ spec.last_read (read_behind behind) (option_map spec.read_first first)) }
{
    match first {
        Some(first) => last_before(alloc, behind, first, inside),
        None => Ok(None),
    }
}

fn all_before(behind: ChoicesBehind) -> Option<Choices>
    ensures { option_map read_choices result ≡ choices.finished_choices (read_behind behind) }
{
    if !behind.lead.is_empty() {
        return None;
    }
    let mut arms = behind.arms;
    arms.reverse();
    Some(Choices {
        arms,
        last: behind.last,
        depth: behind.depth,
    })
}

/// The arms, where no items stand in front of them.
pub fn finished(behind: Option<ChoicesBehind>) -> Option<Choices>
    ensures { option_map read_choices result
        ≡ option_and_then choices.finished_choices (option_map read_behind behind) }
{
    match behind {
        Some(behind) => all_before(behind),
        None => None,
    }
}
