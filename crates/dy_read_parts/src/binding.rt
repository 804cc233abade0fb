//! What is bound.

ghost use Rattle.std.specs.Prelude.{◌≡◌};
ghost use Rattle.std.specs.List.{list_any};
ghost use Rattle.dy_tree.specs.Fragments.{seen_fragments};
ghost use Rattle.dy_rules.specs.Types as spec;

use crate::separator::{Separator, separates};
use dy_tree::{Fragment, Splitting};

/// Whether one of these fragments splits a statement.
fn any_splits(words: Splitting, fragments: &[Fragment]) -> bool
    ensures { result ≡ list_any (spec.is_splitting words) (seen_fragments fragments.now) }
{
    for fragment in fragments {
        if separates(Separator::Splitter(words), fragment) {
            return true;
        }
    }
    false
}

/// Whether no word splits the statement behind the name that is bound.
pub fn binds_plainly(words: Splitting, fragments: &[Fragment]) -> bool
    ensures { result ≡ spec.binds_plainly words (seen_fragments fragments.now) }
{
    match fragments.split_first() {
        Some((_, rest)) => !any_splits(words, rest),
        None => true,
    }
}
