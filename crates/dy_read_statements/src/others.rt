//! The alternatives of an `if` that were read.

ghost use Rattle.std.specs.Prelude.{◌≡◌};
ghost use Rattle.dy_read_statements.specs.ReadBranches.{others_of, others_depth};

use dy_tree::{Alternative, Item};

/// The alternatives behind the first body of an `if`, and how deep they are.
#[derive(Drop)]
pub struct Others {
    pub alternatives: Vec<Alternative>,
    /// The body behind `else`.
    pub otherwise: Option<Vec<Item>>,
    pub depth: usize,
    pub ghost depth_is: { depth ≡ others_depth (others_of alternatives.items otherwise) },
}
