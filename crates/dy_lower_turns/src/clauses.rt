//! What each turn does with the clauses of any loop before its body.

ghost use Rattle.std.specs.Prelude.{◌≡◌, ◌++◌, ◌+◌, ◌-◌, ℕ, IfOk, OnOk, length};
ghost use Rattle.dy_meaning.specs.Layouts as layouts;
ghost use Rattle.dy_meaning.specs.Layouts.{place_of};
ghost use Rattle.dy_layouts.specs.Views.{seen_layout};
ghost use Rattle.dy_lowered.specs.Terms.{clause_code};
ghost use Rattle.dy_lowered.specs.Parts.{put, cell};
ghost use Rattle.dy_lowered.specs.Turns.{operand, operands, all_operands, variable, bindings};
ghost use Rattle.dy_lowered.specs.Turns.{testing, tests};
ghost use Rattle.dy_lower_parts.specs.Seen.{seen_code};
ghost use Rattle.dy_lower_turns.specs.ClauseCode.{clauses_code};

use crate::bounds::put_limit_reached;
use crate::operands::plus;
use crate::operations::put_operand;
use dy_base::Items;
use dy_layouts::Layout;
use dy_lower_parts::{Buffer, Refusal, put_cell, put_local};
use dy_term::ForClause;

/// How many operands a clause has.
pub fn operands_of(clause: &ForClause) -> u32
    ensures { (layout : layouts.Layout) (n : ℕ)
        → result ≡ operands (clause_code layout clause.now n) }
{
    match clause {
        ForClause::Then(..) => 1,
        ForClause::In(..) => 1,
        ForClause::From(..) => 3,
    }
}

/// How many operands all clauses have.
pub fn all_operands(clauses: &Items<ForClause>) -> Result<u32, Refusal>
    ensures { IfOk result (λ count. (layout : layouts.Layout) (n : ℕ)
        → count ≡ all_operands (clauses_code layout clauses.now n)) }
{
    let mut count = 0;
    let all = clauses.as_slice();
    for index in (0..all.len()).rev() {
        count = plus(operands_of(&all[index]), count)?;
    }
    Ok(count)
}

/// The variable of a clause.
fn variable_of(clause: &ForClause) -> u32
    ensures { (layout : layouts.Layout) (n : ℕ)
        → place_of layout result ≡ variable (clause_code layout clause.now n) }
{
    match clause {
        ForClause::Then(local, _, _, _) => *local,
        ForClause::In(local, _, _) => *local,
        ForClause::From(local, _, _, _, _) => *local,
    }
}

/// The variable of a clause is bound to the operand of this place.
fn put_binding(
    layout: &Layout,
    clause: &ForClause,
    place: u32,
    code: &mut Buffer,
) -> Result<(), Refusal>
    ensures { OnOk result ((n : ℕ) → seen_code code.new ≡ operand place
        ++ (put (variable (clause_code (seen_layout layout.now) clause.now n))
        ++ (cell (variable (clause_code (seen_layout layout.now) clause.now n))
        ++ seen_code code.old))) }
{
    let variable = layout.place_of(variable_of(clause))?;
    put_cell(variable, code)?;
    put_local(variable, code)?;
    put_operand(place, code)?;
    Ok(())
}

/// Each variable is bound to the first operand of its clause.
pub fn put_bindings(
    layout: &Layout,
    clauses: &Items<ForClause>,
    code: &mut Buffer,
) -> Result<(), Refusal>
    ensures { OnOk result ((n : ℕ) → seen_code code.new
        ≡ bindings (clauses_code (seen_layout layout.now) clauses.now n) ++ seen_code code.old) }
{
    let mut place = 0;
    let all = clauses.as_slice();
    for index in (0..all.len()).rev() {
        let clause = &all[index];
        place = plus(operands_of(clause), place)?;
        put_binding(layout, clause, place, code)?;
    }
    Ok(())
}

/// The loop is left for so many last instructions where a clause has come to its end.
fn put_clause_test(
    clause: &ForClause,
    above: u32,
    exit: usize,
    code: &mut Buffer,
) -> Result<(), Refusal>
    ensures { OnOk result ((layout : layouts.Layout) (n : ℕ) → seen_code code.new
        ≡ testing (clause_code layout clause.now n) above (length (seen_code code.old) - exit)
        ++ seen_code code.old) }
{
    match clause {
        ForClause::Then(..) => Ok(()),
        ForClause::In(..) => Ok(()),
        ForClause::From(_, _, _, limit, _) => match limit {
            None => Ok(()),
            Some((limit, _)) => {
                put_limit_reached(*limit, above, exit, code)?;
                Ok(())
            }
        },
    }
}

/// All clauses are tested, one after the other.
pub fn put_tests(clauses: &Items<ForClause>, exit: usize, code: &mut Buffer) -> Result<(), Refusal>
    ensures { OnOk result ((layout : layouts.Layout) (n far : ℕ)
        → far + exit ≡ length (seen_code code.old)
        → seen_code code.new ≡ tests (clauses_code layout clauses.now n) far
        ++ seen_code code.old) }
{
    let mut above = 0;
    let all = clauses.as_slice();
    for index in (0..all.len()).rev() {
        let clause = &all[index];
        put_clause_test(clause, above, exit, code)?;
        above = plus(operands_of(clause), above)?;
    }
    Ok(())
}
