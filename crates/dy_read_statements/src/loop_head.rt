//! The head of a `for`: its clauses, and the test that ends it.

ghost use Rattle.std.specs.Prelude.{◌≡◌, ◌∷◌, ◌≤◌, ℕ, max, [], None, IfOk, option_map};
ghost use Rattle.dy_tree.specs.Fragments.{seen_fragment, seen_fragments};
ghost use Rattle.dy_rules.specs.Cutting as cutting;
ghost use Rattle.dy_rules.specs.Loops as loops;
ghost use Rattle.dy_read_types.specs.Endings.{parts_before};
ghost use Rattle.dy_read_outers.specs.Grown.{read_grown};
ghost use Rattle.dy_read_statements.specs.LoopHeads as spec;
ghost use Rattle.dy_read_parts.specs.Nesting.{nesting};
ghost use Rattle.dy_read_statements.specs.ReadLoops.{read_for, read_fors, ForDepth};

use dy_read_outers::grown::Grown;
use dy_read_parts::depth::deepen;
use dy_read_words::sign::is_stop_word;
use dy_tree::{ForClause, Fragment, Stop, Token};
use std::alloc::{AllocError, Global};

/// What stands between the brackets of a `for`.
#[derive(Drop)]
pub struct ForHead {
    pub clauses: Vec<ForClause>,
    pub stop: Option<Stop>,
}

/// How the last part of a head begins.
#[derive(Clone, Copy, Debug)]
pub enum LastShape<'a> {
    /// `while:` or `until:`, with its test.
    Stop {
        keyword: &'a Token,
        test: &'a [Fragment],
    },
    Clause,
}

#[tactic(auto, using(crate::proofs::LoopHeads::stop_capped, crate::proofs::LoopHeads::clause_capped))]
fn shape_at<'a>(first: &'a Fragment, rest: &'a [Fragment]) -> LastShape<'a>
    ensures read { spec.capped_last (seen_fragment first.now ∷ seen_fragments rest.now)
        ≡ spec.last_read result (spec.capped_clause
        (seen_fragment first.now ∷ seen_fragments rest.now)) }
    ensures nested { spec.IsStopWithin (nesting (seen_fragments rest.now)) result }
{
    match first {
        Fragment::One(keyword) if is_stop_word(keyword) => LastShape::Stop {
            keyword,
            test: rest,
        },
        _ => LastShape::Clause,
    }
}

/// How the last part of a head begins.
#[tactic(auto, using(crate::proofs::LoopHeads::clause_capped))]
pub fn last_shape(fragments: &[Fragment]) -> LastShape<'_>
    ensures read { spec.capped_last (seen_fragments fragments.now)
        ≡ spec.last_read result (spec.capped_clause (seen_fragments fragments.now)) }
    ensures nested { spec.IsStopWithin (nesting (seen_fragments fragments.now)) result }
{
    match fragments.split_first() {
        Some((first, rest)) => shape_at(first, rest),
        None => LastShape::Clause,
    }
}

/// A head without clauses.
pub fn empty_head(alloc: Global) -> ForHead
    ensures { spec.read_head result ≡ record { parts = []; last = None } }
{
    ForHead {
        clauses: Vec::new(alloc),
        stop: None,
    }
}

/// A head that ends with a test.
pub fn with_stop(
    clauses: Vec<ForClause>,
    keyword: &Token,
    test: Option<Grown>,
    depth: &mut usize,
) -> Result<Option<ForHead>, AllocError>
    ensures found { IfOk result
        (λ found. option_map spec.read_head found
        ≡ parts_before (read_fors clauses.items)
        (option_map cutting.only_last
        (option_map (loops.stop_with keyword.now) (option_map read_grown test)))) }
    ensures depth { IfOk result
        (λ found. (outer : ℕ) → depth.old ≡ max outer (spec.fors_depth clauses.items)
        → spec.HeadDepth outer depth.new found) }
{
    match test {
        Some(test) => {
            deepen(depth, test.depth);
            Ok(Some(ForHead {
                clauses,
                stop: Some(Stop {
                    keyword: keyword.copy()?,
                    test: Box::into_inner(test.tree),
                }),
            }))
        }
        None => Ok(None),
    }
}

/// A head that ends with a clause.
pub fn with_clause(
    clauses: Vec<ForClause>,
    clause: Option<ForClause>,
) -> Result<Option<ForHead>, AllocError>
    ensures found { IfOk result
        (λ found. option_map spec.read_head found
        ≡ parts_before (read_fors clauses.items)
        (option_map cutting.only_part (option_map read_for clause))) }
    ensures depth { IfOk result
        (λ found. (outer old new : ℕ) → old ≡ max outer (spec.fors_depth clauses.items)
        → ForDepth old new clause → spec.HeadDepth outer new found) }
{
    match clause {
        Some(clause) => {
            let mut clauses = clauses;
            clauses.push(clause)?;
            Ok(Some(ForHead {
                clauses,
                stop: None,
            }))
        }
        None => Ok(None),
    }
}
