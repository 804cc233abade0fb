//! What is known of how a clause counts before anything runs.

ghost use Rattle.std.specs.Prelude.{◌≡◌, ◌++◌, [], IfSome};
ghost use Rattle.dy_term.specs.declared.term.Term.{out-Term};
ghost use Rattle.dy_meaning.specs.Lambdas.{lambdas_in};
ghost use Rattle.dy_lowered.specs.Flat.{Code};
ghost use Rattle.dy_lowered.specs.Terms.{number_of};
ghost use Rattle.dy_lowered.specs.Turns.{counter, by_one, integer};
ghost use Rattle.dy_lower_turns.specs.ClauseCode.{bounded, known_step, known_limit};
ghost use Rattle.dy_lower_turns.specs.Ways.{seen_counting, hidden_starting, raised_for};

use dy_term::{Limit, Literal, Term};

/// How a clause counts by a step that is known.
#[derive(Clone, Copy)]
pub enum Counting {
    /// By a step, to where it ends, with the bound if that is known.
    Stepping(Option<(Limit, Option<i64>)>, i64),
    /// By one, up to below a bound that is known.
    UpTo(i64),
    /// By one, until the number meets a bound that is evaluated.
    Meeting,
}

/// The number that a term is, if it is the literal of one.
pub fn number_of(term: &Term) -> Option<i64>
    ensures number { result ≡ number_of (out-Term term.now) }
    ensures alone { IfSome result (λ number. lambdas_in term.now ≡ []) }
{
    match term {
        Term::Lit(value) => match value {
            Literal::Int(number) => Some(*number),
            _ => None,
        },
        _ => None,
    }
}

/// A step that is a number in the text, which is 1 where none is written.
pub fn known_step(step: &Option<Term>) -> Option<i64>
    ensures { result ≡ known_step step.now }
{
    match step {
        None => Some(1),
        Some(step) => number_of(step),
    }
}

/// Where a clause ends, with the bound that is a number in the text.
pub fn known_limit(limit: &Option<(Limit, Term)>) -> Option<(Limit, Option<i64>)>
    ensures { result ≡ known_limit limit.now }
{
    match limit {
        None => None,
        Some((limit, bound)) => Some((*limit, number_of(bound))),
    }
}

/// How a clause counts by one.
fn counting_by_one(limit: Option<(Limit, Option<i64>)>) -> Counting
    ensures way { (start given : Code)
        → seen_counting result start given ≡ by_one start (bounded limit given) }
    ensures starting { (start given : Code) → (by_one start (bounded limit given)).starting
        ≡ integer start ++ (hidden_starting (bounded limit given) ++ raised_for result) }
{
    match limit {
        Some((Limit::Below, Some(bound))) => Counting::UpTo(bound),
        Some((Limit::Below, None)) => Counting::Meeting,
        Some((Limit::To, Some(bound))) => {
            if bound < i64::MAX {
                Counting::UpTo(bound + 1)
            } else {
                Counting::Stepping(limit, 1)
            }
        }
        Some((Limit::To, None)) => Counting::Stepping(limit, 1),
        Some((Limit::Above, _)) => Counting::Stepping(limit, 1),
        None => Counting::Stepping(None, 1),
    }
}

/// How a clause counts.
pub fn counting_of(limit: Option<(Limit, Option<i64>)>, step: i64) -> Counting
    ensures way { (start given : Code)
        → seen_counting result start given ≡ counter start (bounded limit given) step }
    ensures starting { (start given : Code) → (counter start (bounded limit given) step).starting
        ≡ integer start ++ (hidden_starting (bounded limit given) ++ raised_for result) }
{
    if step == 1 {
        counting_by_one(limit)
    } else {
        Counting::Stepping(limit, step)
    }
}

/// How many operands lie there for it while the body runs.
pub fn hidden(counting: Counting) -> u32
    ensures { (start given : Code) → result ≡ (seen_counting counting start given).hidden }
{
    match counting {
        Counting::Stepping(None, _) => 0,
        Counting::Stepping(Some((_, Some(_))), _) => 0,
        Counting::Stepping(Some((_, None)), _) => 1,
        Counting::UpTo(_) => 0,
        Counting::Meeting => 1,
    }
}
