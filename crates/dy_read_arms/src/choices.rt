//! The arms of a `case` or a `select` that were read.

ghost use Rattle.std.specs.Prelude.{◌≡◌};
ghost use Rattle.dy_read_arms.specs.ReadArms.{choices_behind, choices_depth, choices_in};

use dy_tree::{Arm, Item};

/// What was read of the end of the arms, the last of it first, and how deep it is.
#[derive(Drop)]
pub struct ChoicesBehind {
    /// Items of the arm that began before.
    pub lead: Vec<Item>,
    pub arms: Vec<Arm>,
    /// The body of the `otherwise`.
    pub last: Option<Vec<Item>>,
    pub depth: usize,
    pub ghost depth_is: { depth ≡ choices_depth (choices_behind lead.items arms.items last) },
}

/// The arms of a `case` or a `select`, and how deep they are.
#[derive(Drop)]
pub struct Choices {
    pub arms: Vec<Arm>,
    /// The body of the `otherwise`.
    pub last: Option<Vec<Item>>,
    pub depth: usize,
    pub ghost depth_is: { depth ≡ choices_depth (choices_in arms.items last) },
}
