//! The statement `for`.

ghost use Rattle.std.specs.Prelude.{◌≡◌, false, IfOk, option_map};
ghost use Rattle.dy_tree.specs.Fragments.{seen_fragments};
ghost use Rattle.dy_tree.specs.declared.brackets.Keyword.TheVariants as keywords;
ghost use Rattle.dy_tree.specs.declared.splitters.Splitting.TheVariants as splittings;
ghost use Rattle.dy_rules.specs.Cutting as cutting;
ghost use Rattle.dy_rules.specs.Fragments.{items_of};
ghost use Rattle.dy_rules.specs.Loops as loops;
ghost use Rattle.dy_rules.specs.StatementReading as statements;
ghost use Rattle.dy_rules_depth.specs.Capping.{capped};
ghost use Rattle.dy_read_outers.specs.Grown.{read_grown};
ghost use Rattle.dy_read_shapes.specs.LoopShapes.{finally_read};
ghost use Rattle.dy_read_statements.specs.Loops.{read_last, loop_at, LastDepth};

use crate::bodies::body;
use crate::clauses::for_clauses;
use dy_read_outers::grown::Grown;
use dy_read_parts::front::headed;
use dy_read_parts::pieces::cut;
use dy_read_parts::separator::Separator;
use dy_read_shapes::loop_shape::{LastPiece, finally_piece};
use dy_read_statements::loop_nodes::{Finally, finally_of, for_node, no_finally};
use dy_tree::{Fragment, Splitting, Token};
use std::alloc::{AllocError, Global};

/// The part behind `finally`, or nothing.
#[cycle(read)]
fn finally_in(
    alloc: Global,
    shape: LastPiece,
    depth: &mut usize,
) -> Result<Option<Finally>, AllocError>
    ensures found { IfOk result (λ found. option_map read_last found ≡ finally_read shape.entry) }
    ensures depth { IfOk result (λ found. LastDepth depth.old depth.new found) }
{
    match shape {
        LastPiece::Nothing => Ok(Some(no_finally())),
        LastPiece::Part(fragments) => {
            let trees = body(alloc, Splitting::LastPart, fragments, depth)?;
            Ok(finally_of(trees))
        }
        LastPiece::Wrong => Ok(None),
    }
}

/// A `for` with this head in front of these fragments.
#[cycle(read)]
fn loop_behind(
    alloc: Global,
    word: &Token,
    head: &[Fragment],
    rest: &[Fragment],
) -> Result<Option<Grown>, AllocError>
    ensures { IfOk result (λ found. option_map read_grown found
        ≡ option_map capped (loop_at word.now (loops.for_items (items_of (seen_fragments head.now)))
        (cutting.cut (cutting.is_splitter splittings.LastPart) false
        (items_of (seen_fragments rest.now))))) }
{
    let pieces = cut(alloc, Separator::Splitter(Splitting::LastPart), false, rest)?;
    let mut depth = 0;
    let clauses = for_clauses(alloc, head, &mut depth)?;
    let items = body(alloc, Splitting::LastPart, pieces.first, &mut depth)?;
    let last = finally_in(alloc, finally_piece(&pieces.others), &mut depth)?;
    for_node(alloc, word, clauses, items, last, depth)
}

/// The statement `for` between its word and its `end`.
#[cycle(read)]
pub fn for_loop(
    alloc: Global,
    word: &Token,
    inner: &[Fragment],
) -> Result<Option<Grown>, AllocError>
    ensures { IfOk result (λ found. option_map read_grown found
        ≡ option_map capped (statements.statement_items keywords.For word.now
        (items_of (seen_fragments inner.now)))) }
{
    match headed(inner) {
        Some(front) => loop_behind(alloc, word, front.inner, front.rest),
        None => Ok(None),
    }
}
