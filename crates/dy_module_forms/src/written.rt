//! Forms as they are written.

use dy_base::{Items, Name, Place};

/// A name of a set, and the new name behind its arrow, if there is one.
#[derive(Debug, Drop)]
pub struct Member {
    pub name: Name,
    pub new: Option<Name>,
}

/// An option of a use clause.
#[derive(Debug, Drop)]
pub enum UseOption {
    /// The names that come in, or `None` for `all`.
    Import(Option<Items<Member>>),
    /// The names that are left out.
    Exclude(Items<Name>),
    /// The names that take a new name, or keep theirs without the prefix.
    Rename(Items<Member>),
    /// What other names take before them.
    Prefix(Name),
    /// The new names that are exported again, or `None` for `all`.
    Export(Option<Items<Name>>),
}

/// What a form is about.
#[derive(Clone, Copy, Debug, PartialEq, Eq)]
pub enum Kind {
    Library,
    Module,
}

/// A clause of a form. In the form of a library the names are those of modules, and a use clause
/// names a library.
#[derive(Debug, Drop)]
pub enum Clause {
    /// The used module or library, and the options in their order, each at most once.
    Use(Name, Items<UseOption>),
    Export(Items<Name>),
    /// Names that another module defines. A library has no such clause.
    Create(Items<Name>),
}

/// A clause with the place of its word.
#[derive(Debug, Drop)]
pub struct Placed {
    pub place: Place,
    pub clause: Clause,
}

/// `define library NAME .. end` or `define module NAME .. end`.
#[derive(Debug, Drop)]
pub struct Form {
    pub kind: Kind,
    /// The place of `define`.
    pub place: Place,
    pub name: Name,
    pub clauses: Items<Placed>,
}
