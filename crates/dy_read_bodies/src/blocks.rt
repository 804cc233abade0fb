//! The blocks that fragments stand for.

ghost use Rattle.std.specs.Prelude.{◌≡◌, max, IfOk, map, option_and_then, option_map};
ghost use Rattle.dy_tree.specs.Fragments.{seen_fragments};
ghost use Rattle.dy_tree.specs.declared.splitters.Splitting.TheVariants as splittings;
ghost use Rattle.dy_rules.specs.Blocks as spec;
ghost use Rattle.dy_rules.specs.Bodies.{body_items};
ghost use Rattle.dy_rules.specs.Cutting as cutting;
ghost use Rattle.dy_rules.specs.Cutting.{is_splitter};
ghost use Rattle.dy_rules.specs.Depth as measure;
ghost use Rattle.dy_rules.specs.Fragments.{items_of};
ghost use Rattle.dy_rules.specs.SeenForms.{seen_clause, seen_item, seen_statement};
ghost use Rattle.dy_rules.specs.SeenTypes.{seen_type};
ghost use Rattle.dy_rules.specs.Trees as trees;
ghost use Rattle.dy_rules_depth.specs.Changes.{changed_clause};
ghost use Rattle.dy_rules_depth.specs.Capping.{capped, capping};
ghost use Rattle.dy_read_arms.specs.BodyDepths.{BodyDepth, ClauseDepth, ClausesDepth};
ghost use Rattle.dy_read_statements.specs.CaughtShapes.{block_read, block_to, clause_read};
ghost use Rattle.dy_read_statements.specs.CaughtShapes.{clause_to, read_caught};
ghost use Rattle.dy_read_parts.specs.Front.{seen_front};
ghost use Rattle.dy_read_outers.specs.Grown.{read_grown};
ghost use Rattle.dy_read_parts.specs.Pieces.{others_in};
ghost use Rattle.dy_read_arms.specs.ReadBodies.{read_clause, read_clauses, read_items};

use crate::bodies::body;
use dy_read_arms::suits::suit_block;
use dy_read_outers::grown::Grown;
use dy_read_parts::cutting::split_piece;
use dy_read_parts::depth::deepest;
use dy_read_parts::front::{Front, headed};
use dy_read_parts::mark::word_of;
use dy_read_parts::names::exit_inside;
use dy_read_parts::separator::Separator;
use dy_read_statements::caught::{Caught, caught_items};
use dy_read_statements::statement_nodes::statement_within;
use dy_tree::{BlockClause, Fragment, Item, Splitter, Splitting, Statement, Token, TypeForm};
use std::alloc::{AllocError, Global};

fn afterwards_of(body: Vec<Item>) -> BlockClause
    ensures { seen_clause result
        ≡ trees.afterwards_clause (trees.body_of (map seen_item body.items)) }
{
    BlockClause::Afterwards { body }
}

fn cleanup_of(body: Vec<Item>) -> BlockClause
    ensures { seen_clause result ≡ trees.cleanup_clause (trees.body_of (map seen_item body.items)) }
{
    BlockClause::Cleanup { body }
}

fn exception_of(variable: Option<Token>, condition: TypeForm, body: Vec<Item>) -> BlockClause
    ensures { seen_clause result
        ≡ trees.exception_clause variable (seen_type condition)
        (trees.body_of (map seen_item body.items)) }
{
    BlockClause::Exception {
        variable,
        condition,
        body,
    }
}

fn block_tree(
    word: Token,
    exit: Option<Token>,
    body: Vec<Item>,
    clauses: Vec<BlockClause>,
) -> Statement
    ensures { seen_statement result
        ≡ trees.block_tree word exit (trees.body_of (map seen_item body.items))
        (trees.block_clauses_of (map seen_clause clauses.items)) }
{
    Statement::Block {
        word,
        exit,
        body,
        clauses,
    }
}

/// `afterwards`
fn afterwards(body: Option<Vec<Item>>) -> Option<BlockClause>
    ensures { option_map read_clause result
        ≡ option_map spec.afterwards_of (option_map read_items body) }
{
    match body {
        Some(body) => Some(afterwards_of(body)),
        None => None,
    }
}

/// `cleanup`
fn cleanup(body: Option<Vec<Item>>) -> Option<BlockClause>
    ensures { option_map read_clause result
        ≡ option_map spec.cleanup_of (option_map read_items body) }
{
    match body {
        Some(body) => Some(cleanup_of(body)),
        None => None,
    }
}

fn exception_with(caught: Caught, body: Option<Vec<Item>>) -> Option<BlockClause>
    ensures { option_map read_clause result
        ≡ clause_to (option_map read_items body) (read_caught caught) }
{
    match body {
        Some(body) => Some(exception_of(caught.variable, caught.condition, body)),
        None => None,
    }
}

/// `exception`
fn exception(caught: Option<Caught>, body: Option<Vec<Item>>) -> Option<BlockClause>
    ensures { option_map read_clause result
        ≡ clause_read (option_map read_caught caught) (option_map read_items body) }
{
    match caught {
        Some(caught) => exception_with(caught, body),
        None => None,
    }
}

/// A block whose deepest part is `inside` deep.
fn block_within(
    alloc: Global,
    word: &Token,
    exit: Option<Token>,
    body: Vec<Item>,
    clauses: Vec<BlockClause>,
    inside: usize,
) -> Result<Grown, AllocError>
    requires { inside ≡ max (measure.body_depth (trees.body_of (read_items body)))
        (measure.block_clauses_depth (trees.block_clauses_of (read_clauses clauses))) }
    ensures { IfOk result (λ grown. read_grown grown
        ≡ capped (spec.block_of word.now exit (read_items body) (read_clauses clauses))) }
{
    let tree = block_tree(word.copy()?, exit, body, clauses);
    statement_within(alloc, word, tree, inside)
}

/// A block, where its clauses suit it.
fn block_suits(
    alloc: Global,
    word: &Token,
    exit: Option<Token>,
    body: Vec<Item>,
    clauses: Vec<BlockClause>,
    inside: usize,
) -> Result<Option<Grown>, AllocError>
    requires { inside ≡ max (measure.body_depth (trees.body_of (read_items body)))
        (measure.block_clauses_depth (trees.block_clauses_of (read_clauses clauses))) }
    ensures { IfOk result (λ found. option_map read_grown found
        ≡ option_map capped (spec.block_suits word.now exit (read_items body)
        (read_clauses clauses))) }
{
    if suit_block(&clauses) {
        Ok(Some(block_within(alloc, word, exit, body, clauses, inside)?))
    } else {
        Ok(None)
    }
}

/// A clause whose condition stands between brackets.
#[cycle(read)]
fn exception_at(
    alloc: Global,
    condition: &[Fragment],
    fragments: &[Fragment],
    depth: &mut usize,
) -> Result<Option<BlockClause>, AllocError>
    ensures found { IfOk result
        (λ found. option_map read_clause found
        ≡ option_map (changed_clause capping)
        (clause_read (spec.caught_items (items_of (seen_fragments condition.now)))
        (body_items splittings.Endings (items_of (seen_fragments fragments.now))))) }
    ensures depth { IfOk result (λ found. ClauseDepth depth.old depth.new found) }
{
    let catches = caught_items(alloc, condition, depth)?;
    let items = body(alloc, Splitting::Endings, fragments, depth)?;
    Ok(exception(catches, items))
}

/// A clause with what it catches.
#[cycle(read)]
fn exception_items(
    alloc: Global,
    fragments: &[Fragment],
    depth: &mut usize,
) -> Result<Option<BlockClause>, AllocError>
    ensures found { IfOk result
        (λ found. option_map read_clause found
        ≡ option_map (changed_clause capping)
        (option_and_then spec.exception_items
        (cutting.headed (items_of (seen_fragments fragments.now))))) }
    ensures depth { IfOk result (λ found. ClauseDepth depth.old depth.new found) }
{
    match headed(fragments) {
        Some(front) => exception_at(alloc, front.inner, front.rest, depth),
        None => Ok(None),
    }
}

/// A clause of a block.
#[cycle(read)]
fn block_clause(
    alloc: Global,
    word: Splitter,
    fragments: &[Fragment],
    depth: &mut usize,
) -> Result<Option<BlockClause>, AllocError>
    ensures found { IfOk result
        (λ found. option_map read_clause found
        ≡ option_map (changed_clause capping)
        (spec.block_clause_at word (items_of (seen_fragments fragments.now)))) }
    ensures depth { IfOk result (λ found. ClauseDepth depth.old depth.new found) }
{
    match word {
        Splitter::Afterwards => {
            let items = body(alloc, Splitting::Endings, fragments, depth)?;
            Ok(afterwards(items))
        }
        Splitter::Cleanup => {
            let items = body(alloc, Splitting::Endings, fragments, depth)?;
            Ok(cleanup(items))
        }
        Splitter::Exception => exception_items(alloc, fragments, depth),
        _ => Ok(None),
    }
}

/// The clauses behind the body of a block, each of them behind its word.
#[cycle(read)]
fn block_clauses(
    alloc: Global,
    fragments: &[Fragment],
    depth: &mut usize,
) -> Result<Option<Vec<BlockClause>>, AllocError>
    ensures found { IfOk result
        (λ found. option_map read_clauses found
        ≡ option_map (map (changed_clause capping))
        (spec.block_clauses_in (others_in (is_splitter splittings.Endings)
        (seen_fragments fragments.now)))) }
    ensures depth { IfOk result (λ found. ClausesDepth depth.old depth.new found) }
{
    let mut clauses = Vec::new(alloc);
    let mut rest = fragments;
    while let Some((separator, behind)) = rest.split_first() {
        let (piece, others) = split_piece(Separator::Splitter(Splitting::Endings), false, behind);
        match block_clause(alloc, word_of(separator), piece, depth)? {
            Some(clause) => clauses.push(clause)?,
            None => return Ok(None),
        }
        rest = others;
    }
    Ok(Some(clauses))
}

/// A block with its clauses, where they were read.
fn with_clauses(
    alloc: Global,
    word: &Token,
    exit: Option<Token>,
    body: Vec<Item>,
    clauses: Option<Vec<BlockClause>>,
    in_body: usize,
    in_clauses: usize,
) -> Result<Option<Grown>, AllocError>
    requires body { in_body ≡ measure.body_depth (trees.body_of (read_items body)) }
    requires clauses { ClausesDepth 0 in_clauses clauses }
    ensures { IfOk result (λ found. option_map read_grown found
        ≡ option_map capped (spec.block_body word.now exit (option_map read_clauses clauses)
        (read_items body))) }
{
    match clauses {
        Some(clauses) => block_suits(
            alloc,
            word,
            exit,
            body,
            clauses,
            deepest(in_body, in_clauses),
        ),
        None => Ok(None),
    }
}

/// A block with its body and its clauses, where they were read.
fn with_body(
    alloc: Global,
    word: &Token,
    exit: Option<Token>,
    body: Option<Vec<Item>>,
    clauses: Option<Vec<BlockClause>>,
    in_body: usize,
    in_clauses: usize,
) -> Result<Option<Grown>, AllocError>
    requires body { BodyDepth 0 in_body body }
    requires clauses { ClausesDepth 0 in_clauses clauses }
    ensures { IfOk result (λ found. option_map read_grown found
        ≡ option_map capped (block_to word.now (option_map read_items body)
        (option_map read_clauses clauses) exit)) }
{
    match body {
        Some(body) => with_clauses(alloc, word, exit, body, clauses, in_body, in_clauses),
        None => Ok(None),
    }
}

/// A block of its parts, where all of them were read.
fn block_with(
    alloc: Global,
    word: &Token,
    exit: Option<Option<Token>>,
    body: Option<Vec<Item>>,
    clauses: Option<Vec<BlockClause>>,
    in_body: usize,
    in_clauses: usize,
) -> Result<Option<Grown>, AllocError>
    requires body { BodyDepth 0 in_body body }
    requires clauses { ClausesDepth 0 in_clauses clauses }
    ensures { IfOk result (λ found. option_map read_grown found
        ≡ option_map capped (block_read word.now exit (option_map read_items body)
        (option_map read_clauses clauses))) }
{
    match exit {
        Some(exit) => with_body(alloc, word, exit, body, clauses, in_body, in_clauses),
        None => Ok(None),
    }
}

/// A block whose exit stands between brackets.
#[cycle(read)]
fn block_at(alloc: Global, word: &Token, front: &Front<'_>) -> Result<Option<Grown>, AllocError>
    ensures { IfOk result (λ found. option_map read_grown found
        ≡ option_map capped (spec.block_items word.now (seen_front front.now))) }
{
    let (first, others) = split_piece(Separator::Splitter(Splitting::Endings), false, front.rest);
    let exit = exit_inside(front)?;
    let mut in_body = 0;
    let items = body(alloc, Splitting::Endings, first, &mut in_body)?;
    let mut in_clauses = 0;
    let clauses = block_clauses(alloc, others, &mut in_clauses)?;
    block_with(alloc, word, exit, items, clauses, in_body, in_clauses)
}

/// The block between its word and its `end`.
#[cycle(read)]
pub fn block(alloc: Global, word: &Token, inner: &[Fragment]) -> Result<Option<Grown>, AllocError>
    ensures { IfOk result (λ found. option_map read_grown found
        ≡ option_map capped (option_and_then (spec.block_items word.now)
        (cutting.headed (items_of (seen_fragments inner.now))))) }
{
    match headed(inner) {
        Some(front) => block_at(alloc, word, &front),
        None => Ok(None),
    }
}
