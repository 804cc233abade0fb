//! The constructs of expressions (DRM 4).

ghost use Rattle.std.specs.Prelude.{◌≡◌, flat_map, map};
ghost use Rattle.dy_rules.specs.Trees.{arguments_of};
ghost use Rattle.dy_rules.specs.SeenForms.{seen_argument, seen_initial, seen_tree};
ghost use Rattle.dy_construct_parts.specs.Table.{first_absent};
ghost use Rattle.dy_constructs.specs.Bodies as bodies;
ghost use Rattle.dy_constructs.specs.Held.{held_argument};

use crate::statements::in_statement;
use dy_construct_parts::constants::{in_constants, in_tail};
use dy_construct_parts::construct::{Construct, absent, by_count, where_true};
use dy_construct_parts::parts::in_literal;
use dy_construct_parts::words::{binary, is_comparison, next_method, unary};
use dy_tree::{Argument, Expression};

#[tactic(auto, using(crate::proofs::Unnamed::statement_no_name))]
fn is_name(expression: &Expression) -> bool
    ensures { result ≡ bodies.is_name (seen_tree expression.now) }
{
    match expression {
        Expression::Name(_) => true,
        Expression::Assign { .. }
        | Expression::Operation { .. }
        | Expression::Unary { .. }
        | Expression::Call { .. }
        | Expression::Element { .. }
        | Expression::Member { .. }
        | Expression::Literal(_)
        | Expression::List { .. }
        | Expression::Vector { .. }
        | Expression::Statement(_) => false,
    }
}

#[tactic(auto, using(crate::proofs::Unnamed::statement_not_compared))]
fn is_compared(expression: &Expression) -> bool
    ensures { result ≡ bodies.is_compared (seen_tree expression.now) }
{
    match expression {
        Expression::Operation { operator, .. } => is_comparison(binary(operator)),
        Expression::Assign { .. }
        | Expression::Unary { .. }
        | Expression::Call { .. }
        | Expression::Element { .. }
        | Expression::Member { .. }
        | Expression::Literal(_)
        | Expression::Name(_)
        | Expression::List { .. }
        | Expression::Vector { .. }
        | Expression::Statement(_) => false,
    }
}

/// An expression, wherever it stands. It recurs no deeper than the tree.
#[cycle(trees)]
fn in_tree(expression: &Expression) -> Option<Construct>
    ensures { result ≡ first_absent (bodies.in_tree (seen_tree expression.now)) }
{
    match expression {
        Expression::Assign { place, value } => absent(Construct::Assignment)
            .or(in_tree(place))
            .or(in_value(value)),
        Expression::Operation {
            left,
            operator,
            right,
            ..
        } => absent(binary(operator))
            .or(in_value(left))
            .or(in_value(right)),
        Expression::Unary { operator, operand } => absent(unary(operator)).or(in_value(operand)),
        Expression::Call {
            function,
            arguments,
        } => absent(Construct::Call)
            .or(in_called(function))
            .or(in_arguments(arguments)),
        Expression::Element { object, index, .. } => absent(Construct::Element)
            .or(in_value(object))
            .or(in_value(index)),
        Expression::Member { object, name } => absent(Construct::Member)
            .or(next_method(name))
            .or(in_value(object)),
        Expression::Literal(form) => in_literal(form),
        Expression::Name(token) => absent(Construct::Name).or(next_method(token)),
        Expression::List { items, tail, .. } => absent(Construct::List)
            .or(in_constants(items))
            .or(in_tail(tail)),
        Expression::Vector { items, .. } => absent(Construct::Vector).or(in_constants(items)),
        Expression::Statement(statement) => in_statement(statement),
    }
}

/// An expression that is called.
#[cycle(trees)]
fn in_called(function: &Expression) -> Option<Construct>
    ensures { result ≡ first_absent (bodies.in_called (seen_tree function.now)) }
{
    where_true(Construct::ComputedCall, !is_name(function)).or(in_tree(function))
}

/// An expression where a value is wanted.
#[cycle(trees)]
pub(crate) fn in_value(expression: &Expression) -> Option<Construct>
    ensures { result ≡ first_absent (bodies.in_value (seen_tree expression.now)) }
{
    where_true(Construct::ComparisonValue, is_compared(expression)).or(in_tree(expression))
}

/// The test in the brackets behind a word.
#[cycle(trees)]
pub(crate) fn in_test(test: &Expression) -> Option<Construct>
    ensures { result ≡ first_absent (bodies.in_test (seen_tree test.now)) }
{
    where_true(Construct::OtherTest, !is_compared(test)).or(in_tree(test))
}

#[cycle(trees)]
fn in_arguments(arguments: &Vec<Argument>) -> Option<Construct>
    ensures { result
        ≡ first_absent
        (bodies.in_arguments (arguments_of (map seen_argument arguments.now.items))) }
{
    by_count(
        Construct::NoArgument,
        Construct::SeveralArguments,
        arguments.len(),
    )
    .or(in_each_argument(arguments))
}

#[cycle(trees)]
pub(crate) fn in_each_argument(arguments: &Vec<Argument>) -> Option<Construct>
    ensures { result ≡ first_absent (flat_map held_argument arguments.now.items) }
{
    let mut found = None;
    for argument in arguments {
        found = found.or(in_argument(argument));
    }
    found
}

#[cycle(trees)]
pub(crate) fn in_argument(argument: &Argument) -> Option<Construct>
    ensures { result ≡ first_absent (bodies.in_argument (seen_argument argument.now)) }
{
    match argument {
        Argument::Keyword { value, .. } => absent(Construct::KeywordArgument).or(in_value(value)),
        Argument::Value(value) => in_value(value),
    }
}

/// An expression that may be left out, which is this construct where it stands.
#[cycle(trees)]
pub(crate) fn in_maybe(construct: Construct, expression: &Option<Expression>) -> Option<Construct>
    ensures { result ≡ first_absent (bodies.in_maybe construct (seen_initial expression.now)) }
{
    match expression {
        None => None,
        Some(expression) => absent(construct).or(in_value(expression)),
    }
}
