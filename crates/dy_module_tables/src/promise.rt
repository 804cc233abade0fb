//! Names that a module promises.

use dy_base::{Name, Place};

/// A name that a module exports or creates, and so has to have a definition.
#[derive(Drop)]
pub struct Promise {
    /// The number of the module.
    pub number: usize,
    /// The name, as the module exports it.
    pub name: Name,
    /// The place of the clause.
    pub place: Place,
}
