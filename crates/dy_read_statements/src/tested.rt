//! Round brackets in front, with a test inside.

ghost use Rattle.std.specs.Prelude.{◌≡◌, ◌<◌, ◌≤◌, IfSome};
ghost use Rattle.dy_tree.specs.Fragments.{seen_fragments};
ghost use Rattle.dy_rules.specs.Fragments.{items_of};
ghost use Rattle.dy_rules.specs.StatementReading.{tested};
ghost use Rattle.dy_read_parts.specs.Nesting.{nesting};
ghost use Rattle.dy_read_statements.specs.ReadStatements.{front_tested};

use dy_read_parts::front::{Front, headed};
use dy_tree::Fragment;

/// Round brackets in front, with a test inside.
pub fn tested(fragments: &[Fragment]) -> Option<Front<'_>>
    ensures test { tested (items_of (seen_fragments fragments.now)) ≡ front_tested result }
    ensures nested { IfSome result
        (λ front. nesting (seen_fragments front.inner.now) < nesting
        (seen_fragments fragments.now)) }
    ensures behind { IfSome result
        (λ front. nesting (seen_fragments front.rest.now) ≤ nesting
        (seen_fragments fragments.now)) }
{
    headed(fragments)
}
