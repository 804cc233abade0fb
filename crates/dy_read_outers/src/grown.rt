//! Trees that were read.

ghost use Rattle.std.specs.Prelude.{◌≡◌, ◌≤◌};
ghost use Rattle.dy_rules.specs.Depth as measure;
ghost use Rattle.dy_rules.specs.SeenForms.{seen_tree};
ghost use Rattle.dy_read_outers.specs.ReadTrees.{read_tree};

use dy_tree::Expression;

/// A tree that was read, and how deep it is. In the place of a tree that is too deep stands a leaf
/// that no text stands for.
#[derive(Drop)]
pub struct Grown {
    pub tree: Box<Expression>,
    pub depth: usize,
    pub ghost depth_is: { depth ≡ measure.depth (read_tree tree.value) },
    pub ghost within: { measure.depth (seen_tree tree.value) ≤ measure.depth_limit },
}
