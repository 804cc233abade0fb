//! Arguments that were read.

ghost use Rattle.std.specs.Prelude.{◌≡◌, ◌≤◌};
ghost use Rattle.dy_rules.specs.Depth as measure;
ghost use Rattle.dy_rules.specs.Trees.{arguments_of};
ghost use Rattle.dy_read_outers.specs.ReadTrees.{read_arguments, seen_list};

use dy_tree::Argument;

/// The arguments of a call, and how deep the deepest is.
#[derive(Drop)]
pub struct Passed {
    pub arguments: Vec<Argument>,
    pub depth: usize,
    pub ghost depth_is: { depth
        ≡ measure.arguments_depth (arguments_of (read_arguments arguments.items)) },
    pub ghost within: { measure.arguments_depth (arguments_of (seen_list arguments.items))
        ≤ measure.depth_limit },
}
