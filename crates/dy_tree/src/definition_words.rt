//! The words of definitions, of slots and of their options.

/// A word between `define` and what is defined.
#[derive(Clone, Copy, Debug, PartialEq, Eq)]
pub enum DefineWord {
    Open,
    Sealed,
    Abstract,
    Concrete,
    Primary,
    Free,
    /// `inline` and the like.
    Inlining,
    Class,
    Method,
    Function,
    Generic,
    Constant,
    Variable,
    Domain,
    /// No such word.
    Absent,
}

/// A word at the front of a slot.
#[derive(Clone, Copy, Debug, PartialEq, Eq)]
pub enum SlotWord {
    Constant,
    /// `instance`, `class`, `each-subclass` or `virtual`.
    Allocation,
    /// `slot`
    Slot,
    /// No such word.
    Absent,
}

/// A symbol at the front of an option of a slot.
#[derive(Clone, Copy, Debug, PartialEq, Eq)]
pub enum OptionWord {
    /// `init-keyword:`
    Keyword,
    /// `required-init-keyword:`
    Required,
    /// `init-value:`
    Value,
    /// `init-function:`
    Function,
    /// `setter:`
    Setter,
    /// No such symbol.
    Absent,
}
