//! The constructs of what statements choose among (DRM 7, "Conditionals").

ghost use Rattle.std.specs.Prelude.{◌≡◌, flat_map};
ghost use Rattle.dy_rules.specs.Held.{held_alternative as alternative_tree, held_arm as arm_tree};
ghost use Rattle.dy_rules.specs.Held.{held_test};
ghost use Rattle.dy_construct_parts.specs.Table.{first_absent};
ghost use Rattle.dy_constructs.specs.Bodies as bodies;
ghost use Rattle.dy_constructs.specs.Held.{held_alternative, held_arm, held_value};
ghost use Rattle.dy_construct_parts.specs.declared.construct.Construct.TheVariants as constructs;

use crate::bodies::in_body;
use crate::expressions::{in_test, in_value};
use dy_construct_parts::construct::{Construct, absent};
use dy_tree::{Alternative, Arm, Expression};

#[cycle(trees)]
pub(crate) fn in_alternatives(alternatives: &Vec<Alternative>) -> Option<Construct>
    ensures { result ≡ first_absent (flat_map held_alternative alternatives.now.items) }
{
    let mut found = None;
    for alternative in alternatives {
        found = found.or(in_alternative(alternative));
    }
    found
}

/// `elseif (test) body`
#[cycle(trees)]
fn in_alternative(alternative: &Alternative) -> Option<Construct>
    ensures { result ≡ first_absent (bodies.in_alternative (alternative_tree alternative.now)) }
{
    absent(Construct::Elseif)
        .or(in_test(&alternative.test))
        .or(in_body(&alternative.body))
}

#[cycle(trees)]
pub(crate) fn in_arms(arms: &Vec<Arm>) -> Option<Construct>
    ensures { result ≡ first_absent (flat_map held_arm arms.now.items) }
{
    let mut found = None;
    for arm in arms {
        found = found.or(in_arm(arm));
    }
    found
}

/// The tests of an arm, and its body.
#[cycle(trees)]
fn in_arm(arm: &Arm) -> Option<Construct>
    ensures { result ≡ first_absent (bodies.in_arm (arm_tree arm.now)) }
{
    in_tests(&arm.tests).or(in_body(&arm.body))
}

#[cycle(trees)]
fn in_tests(tests: &Vec<Expression>) -> Option<Construct>
    ensures { result ≡ first_absent (flat_map held_value tests.now.items) }
{
    let mut found = None;
    for test in tests {
        found = found.or(in_value(test));
    }
    found
}

/// What a `select` tests by, if it is written.
#[cycle(trees)]
pub(crate) fn in_selector(test: &Option<Box<Expression>>) -> Option<Construct>
    ensures { result ≡ first_absent (bodies.in_maybe constructs.SelectTest (held_test test.now)) }
{
    match test {
        None => None,
        Some(test) => absent(Construct::SelectTest).or(in_value(test)),
    }
}
