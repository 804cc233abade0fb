//! Statements put together from parts that were read.

ghost use Rattle.std.specs.Prelude.{◌≡◌, ◌+◌, map, IfOk};
ghost use Rattle.dy_rules.specs.Depth as measure;
ghost use Rattle.dy_rules.specs.SeenForms.{seen_item, seen_parameters, seen_statement, seen_tree};
ghost use Rattle.dy_rules.specs.StatementReading as spec;
ghost use Rattle.dy_rules.specs.Trees as trees;
ghost use Rattle.dy_rules_depth.specs.Capping.{capped};
ghost use Rattle.dy_read_statements.specs.FilledInside.{filled_inside};
ghost use Rattle.dy_read_outers.specs.Grown.{read_grown};
ghost use Rattle.dy_rules.specs.Held.{held_alternative, held_arms, held_last, held_test};

use dy_read_outers::grown::Grown;
use dy_read_outers::nodes::{grown, too_deep};
use dy_read_parts::depth::DEPTH_LIMIT;
use dy_tree::{Alternative, Arm, Expression, Guard, Item, Parameters, Statement, Token};
use std::alloc::{AllocError, Global};

/// A statement of parts of which the deepest is `inside` deep, or what stands for one that is too
/// deep.
pub fn statement_within(
    alloc: Global,
    word: &Token,
    statement: Statement,
    inside: usize,
) -> Result<Grown, AllocError>
    requires { measure.depth (filled_inside (seen_statement statement)) ≡ 1 + inside }
    ensures { IfOk result (λ grown. read_grown grown
        ≡ capped (filled_inside (seen_statement statement))) }
{
    if inside < DEPTH_LIMIT {
        grown(alloc, Expression::Statement(statement), inside + 1)
    } else {
        too_deep(alloc, word)
    }
}

/// `begin`
pub fn begin_tree(word: Token, body: Vec<Item>) -> Statement
    ensures { seen_statement result ≡ spec.begin_of word (map seen_item body.items) }
{
    Statement::Begin { word, body }
}

/// `unless`, `while` or `until`
pub fn guarded_tree(guard: Guard, word: Token, test: Box<Expression>, body: Vec<Item>) -> Statement
    ensures { seen_statement result
        ≡ spec.guarded_of guard word (seen_tree test.value) (map seen_item body.items) }
{
    Statement::Guarded {
        guard,
        word,
        test,
        body,
    }
}

/// `method`
pub fn method_tree(word: Token, parameters: Box<Parameters>, body: Vec<Item>) -> Statement
    ensures { seen_statement result
        ≡ trees.method_tree word (seen_parameters parameters.value)
        (trees.body_of (map seen_item body.items)) }
{
    Statement::Method {
        word,
        parameters,
        body,
    }
}

/// `if`
pub fn if_tree(
    word: Token,
    test: Box<Expression>,
    body: Vec<Item>,
    alternatives: Vec<Alternative>,
    otherwise: Option<Vec<Item>>,
) -> Statement
    ensures { seen_statement result
        ≡ trees.if_tree word (seen_tree test.value) (trees.body_of (map seen_item body.items))
        (trees.alternatives_of (map held_alternative alternatives.items)) (held_last otherwise) }
{
    Statement::If {
        word,
        test,
        body,
        alternatives,
        otherwise,
    }
}

/// `case`
pub fn case_tree(word: Token, arms: Vec<Arm>, otherwise: Option<Vec<Item>>) -> Statement
    ensures { seen_statement result ≡ trees.case_tree word (held_arms arms) (held_last otherwise) }
{
    Statement::Case {
        word,
        arms,
        otherwise,
    }
}

/// `select`
pub fn select_tree(
    word: Token,
    value: Box<Expression>,
    test: Option<Box<Expression>>,
    arms: Vec<Arm>,
    otherwise: Option<Vec<Item>>,
) -> Statement
    ensures { seen_statement result
        ≡ trees.select_tree word (seen_tree value.value) (held_test test) (held_arms arms)
        (held_last otherwise) }
{
    Statement::Select {
        word,
        value,
        test,
        arms,
        otherwise,
    }
}
