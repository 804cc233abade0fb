//! Forms that were read.

ghost use Rattle.std.specs.Prelude.{◌≡◌, max, nat_lt};
ghost use Rattle.dy_rules.specs.Depth as measure;
ghost use Rattle.dy_rules.specs.FormDepth.{form_depth};
ghost use Rattle.dy_read_forms.specs.ReadForms.{read_form};
ghost use Rattle.dy_read_outers.specs.ReadTrees.{read_tree};
ghost use Rattle.dy_read_types.specs.Targets.{read_target};

use dy_tree::{Expression, Form, Target};

/// A form that was read, and whether it is deeper than the limit.
#[derive(Drop)]
pub struct FormRead {
    pub form: Form,
    pub is_deep: bool,
    pub ghost deep_is: { is_deep ≡ nat_lt measure.depth_limit (form_depth (read_form form)) },
}

/// A target and what it is bound to, and how deep the deeper one is.
#[derive(Drop)]
pub(crate) struct Binding {
    pub target: Target,
    pub value: Expression,
    pub depth: usize,
    pub ghost depth_is: { depth
        ≡ max (measure.target_depth (read_target target)) (measure.depth (read_tree value)) },
}
