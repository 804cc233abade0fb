//! Definitions of names.

use dy_base::{Place, What};
use dy_modules::Owner;
use dy_tree::Token;

/// What a definition does to its name.
#[derive(Clone, Copy, Debug, PartialEq, Eq)]
pub enum Role {
    /// It makes it this.
    Makes(What),
    /// It adds a method to the generic function that the name means, or else makes the first one.
    Adds,
}

/// A definition of a name.
#[derive(Drop)]
pub struct Definition {
    /// The place of its form.
    pub place: Place,
    pub name: Token,
    pub role: Role,
    /// Who owns what the name means in the module of its token.
    pub owner: Option<Owner>,
    /// Whether a definition of the name may stand in that module.
    pub is_open: bool,
}
