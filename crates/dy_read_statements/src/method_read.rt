//! Methods that were read.

use dy_tree::{Item, Parameters, Token};

/// The parameters and the body of a method.
#[derive(Drop)]
pub struct MethodRead {
    pub parameters: Parameters,
    pub body: Vec<Item>,
}

/// A method behind its name.
#[derive(Drop)]
pub struct NamedRead {
    pub name: Token,
    pub method: MethodRead,
}
