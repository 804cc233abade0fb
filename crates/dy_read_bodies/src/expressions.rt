//! Expressions and arguments, fragment by fragment, with what stands inside of groups.

ghost use Rattle.std.specs.Prelude.{◌≡◌, IfOk, map, option_map};
ghost use Rattle.dy_tree.specs.Fragments.{pack, seen_fragment, seen_fragments};
ghost use Rattle.dy_rules.specs.Fragments.{item_of, items_of, tree_inside};
ghost use Rattle.dy_rules.specs.Reading as reading;
ghost use Rattle.dy_rules_depth.specs.Changes.{changed_argument};
ghost use Rattle.dy_rules_depth.specs.Capping.{capped, capping};
ghost use Rattle.dy_rules_depth.specs.ReaderChanges.{changed_passing, changed_state};
ghost use Rattle.dy_read_outers.specs.Grown.{read_grown};
ghost use Rattle.dy_read_outers.specs.Passed.{read_passed};
ghost use Rattle.dy_read_operators.specs.Machines.{seen_machine, passed_if, tree_if};
ghost use Rattle.dy_read_operators.specs.Passings.{seen_passing};

use crate::statement::inside;
use dy_read_operators::passing::Passing;
use dy_read_operators::state::{Machine, Need};
use dy_read_outers::grown::Grown;
use dy_read_outers::passed::Passed;
use dy_read_parts::part::{Part, part_of};
use dy_read_parts::value::begins_value;
use dy_tree::{Bracket, Fragment, Splitting, Token};
use std::alloc::{AllocError, Global};

/// What was read inside of a group, as far as it is looked at.
#[derive(Drop)]
pub struct InsideRead {
    pub tree: Option<Grown>,
    pub passed: Option<Passed>,
}

/// What stands inside of a group, as far as it is looked at.
#[cycle(read)]
fn within(
    alloc: Global,
    need: Need,
    bracket: Bracket,
    opener: &Token,
    inner: &[Fragment],
) -> Result<InsideRead, AllocError>
    ensures tree { IfOk result
        (λ found. option_map read_grown found.tree
        ≡ option_map capped (tree_if need
        (tree_inside bracket opener.now (pack (seen_fragments inner.now))
        (items_of (seen_fragments inner.now))))) }
    ensures passed { IfOk result
        (λ found. option_map read_passed found.passed
        ≡ option_map (map (changed_argument capping))
        (passed_if need (reading.passed_items (items_of (seen_fragments inner.now))))) }
{
    match need {
        Need::Nothing => Ok(InsideRead {
            tree: None,
            passed: None,
        }),
        Need::Tree => Ok(InsideRead {
            tree: inside(alloc, bracket, opener, inner)?,
            passed: None,
        }),
        Need::Arguments => Ok(InsideRead {
            tree: None,
            passed: arguments(alloc, inner)?,
        }),
    }
}

/// A fragment of an expression.
#[cycle(read)]
fn after_fragment(
    alloc: Global,
    words: Splitting,
    machine: Machine,
    fragment: &Fragment,
) -> Result<Option<Machine>, AllocError>
    ensures { IfOk result (λ next. option_map seen_machine next
        ≡ option_map (changed_state capping)
        (reading.after_item words (seen_machine machine) (item_of (seen_fragment fragment.now)))) }
{
    match part_of(fragment) {
        Part::One(token) => machine.token(alloc, words, token),
        Part::Group {
            bracket,
            opener,
            inner,
        } => {
            let need = machine.need(bracket);
            let found = within(alloc, need, bracket, opener, inner)?;
            machine.group(alloc, bracket, opener, found.tree, found.passed)
        }
    }
}

/// The expression that fragments stand for.
#[cycle(read)]
pub fn expression(
    alloc: Global,
    words: Splitting,
    fragments: &[Fragment],
) -> Result<Option<Grown>, AllocError>
    ensures { IfOk result (λ found. option_map read_grown found
        ≡ option_map capped (reading.expression_items words
        (items_of (seen_fragments fragments.now)))) }
{
    let mut machine = Machine::new(alloc);
    for fragment in fragments {
        match after_fragment(alloc, words, machine, fragment)? {
            Some(next) => machine = next,
            None => return Ok(None),
        }
    }
    machine.tree(alloc)
}

/// A fragment of arguments.
#[cycle(read)]
fn after_argument(
    alloc: Global,
    reader: Passing,
    fragment: &Fragment,
) -> Result<Option<Passing>, AllocError>
    ensures { IfOk result (λ next. option_map seen_passing next
        ≡ option_map (changed_passing capping)
        (reading.after_argument (seen_passing reader) (seen_fragment fragment.now)
        (item_of (seen_fragment fragment.now)))) }
{
    match part_of(fragment) {
        Part::One(token) => reader.token(alloc, token),
        Part::Group {
            bracket,
            opener,
            inner,
        } => {
            let begins = begins_value(fragment);
            let need = reader.need(begins, bracket);
            let found = within(alloc, need, bracket, opener, inner)?;
            reader.group(alloc, begins, bracket, opener, found.tree, found.passed)
        }
    }
}

/// The arguments that fragments stand for.
#[cycle(read)]
fn arguments(alloc: Global, fragments: &[Fragment]) -> Result<Option<Passed>, AllocError>
    ensures { IfOk result (λ found. option_map read_passed found
        ≡ option_map (map (changed_argument capping))
        (reading.passed_items (items_of (seen_fragments fragments.now)))) }
{
    let mut reader = Passing::new();
    for fragment in fragments {
        match after_argument(alloc, reader, fragment)? {
            Some(next) => reader = next,
            None => return Ok(None),
        }
    }
    reader.finish(alloc)
}
