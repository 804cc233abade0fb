//! Macros as data (DRM 10, "Macros").

use crate::fragment::Fragment;
use dy_base::{Items, Name};

/// How a macro is called.
#[derive(Clone, Copy, Debug, PartialEq, Eq)]
pub enum MacroKind {
    /// `name(..)`
    Function,
    /// `name .. end`
    Statement,
    /// `define .. name .. end`
    Definition,
}

/// A pattern, and what stands for a call that it matches.
#[derive(Debug, Drop)]
pub struct Rule {
    pub pattern: Items<Fragment>,
    pub template: Items<Fragment>,
}

/// A macro: its main rules, and its auxiliary rule sets by name.
#[derive(Debug, Drop)]
pub struct Macro {
    pub name: Name,
    /// The number of the module that defines it.
    pub module: u32,
    pub kind: MacroKind,
    pub main: Items<Rule>,
    pub sets: Items<(Name, Items<Rule>)>,
}

/// What the variables of a pattern stand for.
#[derive(Debug, Drop)]
pub struct Bindings {
    pub items: Items<(Name, Items<Fragment>)>,
}
