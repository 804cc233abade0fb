//! A clause of a `for` with its variable.

ghost use Rattle.std.specs.Prelude.{◌≡◌, IfOk, ℕ, map, option_map, option_and_then};
ghost use Rattle.std.specs.List.{All};
ghost use Rattle.dy_tree.specs.Fragments.{seen_fragments};
ghost use Rattle.dy_rules.specs.Fragments.{items_of};
ghost use Rattle.dy_rules.specs.Loops as loops;
ghost use Rattle.dy_rules_depth.specs.Changes.{changed_for};
ghost use Rattle.dy_rules_depth.specs.Capping.{capping};
ghost use Rattle.dy_read_shapes.specs.ClauseShapes as spec;
ghost use Rattle.dy_read_parts.specs.Cut.{seen_piece, IsPieceWithin};
ghost use Rattle.dy_read_parts.specs.Nesting.{nesting};
ghost use Rattle.dy_read_types.specs.VariableFronts as variables;

use crate::loop_shape::{ClauseParts, parts_behind};
use dy_read_parts::binding::binds_plainly;
use dy_read_parts::pieces::{Piece, cut};
use dy_read_parts::separator::Separator;
use dy_read_types::variables::{VariableFront, variable_front};
use dy_tree::{Fragment, Splitting, Variable};
use std::alloc::{AllocError, Global};

/// The variable of a clause, and what stands behind it.
#[derive(Drop)]
pub struct ClauseShape<'a> {
    pub variable: Variable,
    pub parts: ClauseParts<'a>,
}

/// A clause whose variable was read.
#[tactic(auto, using(crate::proofs::ClauseShapes::no_front, crate::proofs::ClauseShapes::front_reads))]
fn shape_behind<'a>(
    front: Option<VariableFront<'a>>,
    others: &[Piece<'a>],
) -> Option<ClauseShape<'a>>
    ensures read { spec.FrontReads front.entry (map seen_piece others.now) result }
    ensures nested { (n : ℕ) → spec.IsFrontWithin n front.entry → All (IsPieceWithin n) others.now
        → spec.IsClauseWithin n result }
    ensures depth { (old new : ℕ) → variables.FrontDepth old new front.entry
        → spec.ShapeDepth old new result }
{
    match front {
        Some(front) => Some(ClauseShape {
            variable: front.variable,
            parts: parts_behind(front.rest, others),
        }),
        None => None,
    }
}

/// The parts of the clause that fragments stand for.
#[tactic(auto, using(crate::proofs::ClauseShapes::front_within))]
pub fn clause_shape<'a>(
    alloc: Global,
    fragments: &'a [Fragment],
    depth: &mut usize,
) -> Result<Option<ClauseShape<'a>>, AllocError>
    ensures read { IfOk result
        (λ found. spec.clause_read found
        ≡ option_map (changed_for capping)
        (loops.clause_items (items_of (seen_fragments fragments.now)))) }
    ensures nested { IfOk result
        (λ found. spec.IsClauseWithin (nesting (seen_fragments fragments.now)) found) }
    ensures depth { IfOk result (λ found. spec.ShapeDepth depth.old depth.new found) }
{
    let pieces = cut(
        alloc,
        Separator::Splitter(Splitting::Steps),
        true,
        fragments,
    )?;
    if binds_plainly(Splitting::Steps, pieces.first) {
        let front = variable_front(alloc, pieces.first, depth)?;
        Ok(shape_behind(front, &pieces.others))
    } else {
        Ok(None)
    }
}
