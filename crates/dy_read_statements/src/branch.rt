//! The words in front of the alternatives of an `if`.

ghost use Rattle.std.specs.Prelude.{◌≡◌};
ghost use Rattle.dy_tree.specs.Fragments.{seen_fragment};
ghost use Rattle.dy_rules.specs.Cutting as cutting;
ghost use Rattle.dy_read_statements.specs.Branches.{branch_of};

use dy_read_parts::mark::word_of;
use dy_tree::{Fragment, Splitter};

/// An alternative of an `if`.
#[derive(Clone, Copy, Debug, PartialEq, Eq)]
pub enum Branch {
    Else,
    Elseif,
    /// None of the two.
    Absent,
}

/// Which alternative a word begins.
pub fn branch_at(separator: &Fragment) -> Branch
    ensures { result ≡ branch_of (cutting.word_of (seen_fragment separator.now)) }
{
    match word_of(separator) {
        Splitter::Else => Branch::Else,
        Splitter::Elseif => Branch::Elseif,
        _ => Branch::Absent,
    }
}
