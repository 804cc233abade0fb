//! The words of types, and the marks of parameter lists.

/// A word that brackets stand behind in a type.
#[derive(Clone, Copy, Debug, PartialEq, Eq)]
pub enum TypeWord {
    /// `singleton`
    Singleton,
    /// `type-union`
    Union,
    /// `limited`
    Limited,
    /// No such word.
    Absent,
}

/// A mark of a parameter list.
#[derive(Clone, Copy, Debug, PartialEq, Eq)]
pub enum PartWord {
    /// `#next`
    Next,
    /// `#rest`
    Rest,
    /// `#key`
    Key,
    /// `#all-keys`
    AllKeys,
    /// No such mark.
    Absent,
}
