//! The arms of `case` and `select`.

ghost use Rattle.std.specs.Prelude.{◌≡◌, ◌++◌, map, OnOk};
ghost use Rattle.dy_tree.specs.Fragments.{seen_fragments};
ghost use Rattle.dy_rules.specs.Trees.{tests_of};
ghost use Rattle.dy_rules.specs.Writing.{written_arm, written_arms, written_test, written_tests};
ghost use Rattle.dy_rules.specs.SeenForms.{seen_tree};
ghost use Rattle.dy_rules.specs.Held.{held_arm, held_arms, held_test};

use crate::write::bodies::push_body;
use crate::write::expressions::push_whole;
use dy_tree::{Arm, Expression, Fragment};
use dy_write_parts::breaks::push_between;
use dy_write_parts::mark::{push_mark, push_word};
use std::alloc::{AllocError, Global};

/// Adds what a `select` tests by, behind its word, if it is there.
#[cycle(write)]
pub fn push_selector(
    alloc: Global,
    test: &Option<Box<Expression>>,
    out: &mut Vec<Fragment>,
) -> Result<(), AllocError>
    ensures { OnOk result (seen_fragments out.new.items
        ≡ seen_fragments out.old.items ++ written_test (held_test test.now)) }
{
    match test {
        Some(test) => {
            push_word(alloc, out, b"by")?;
            push_whole(alloc, test, out)
        }
        None => Ok(()),
    }
}

/// Adds arms with semicolons between them.
#[cycle(write)]
pub fn push_arms(alloc: Global, arms: &Vec<Arm>, out: &mut Vec<Fragment>) -> Result<(), AllocError>
    ensures { OnOk result (seen_fragments out.new.items
        ≡ seen_fragments out.old.items ++ written_arms (held_arms arms.now)) }
{
    let mut first = true;
    for arm in arms {
        push_between(alloc, out, b";", first)?;
        push_arm(alloc, arm, out)?;
        first = false;
    }
    Ok(())
}

#[cycle(write)]
fn push_arm(alloc: Global, arm: &Arm, out: &mut Vec<Fragment>) -> Result<(), AllocError>
    ensures { OnOk result (seen_fragments out.new.items
        ≡ seen_fragments out.old.items ++ written_arm (held_arm arm.now)) }
{
    push_tests(alloc, &arm.tests, out)?;
    push_mark(alloc, out, b"=>")?;
    push_body(alloc, &arm.body, out)
}

#[cycle(write)]
fn push_tests(
    alloc: Global,
    tests: &Vec<Expression>,
    out: &mut Vec<Fragment>,
) -> Result<(), AllocError>
    ensures { OnOk result (seen_fragments out.new.items
        ≡ seen_fragments out.old.items
        ++ written_tests (tests_of (map seen_tree tests.now.items))) }
{
    let mut first = true;
    for test in tests {
        push_between(alloc, out, b",", first)?;
        push_whole(alloc, test, out)?;
        first = false;
    }
    Ok(())
}
