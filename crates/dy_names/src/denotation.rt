//! What names stand for.

use dy_base::BindingId;

/// What a name in force stands for.
#[derive(Clone, Copy, Debug, PartialEq, Eq)]
pub enum Denotation {
    /// A local, by its number.
    Local(u32),
    /// The next method (DRM 6, "Passing Keyword Arguments to next-method"). It can't be assigned.
    NextMethod,
    /// `#f`: the name of a next method in a body that has none. It can't be assigned.
    NoMethod,
}

/// What a name means at its place.
#[derive(Clone, Copy, Debug, PartialEq, Eq)]
pub enum Meaning {
    /// What is in force in the bodies around it.
    InForce(Denotation),
    /// What its module has.
    Owned(BindingId),
    Unbound,
}
