//! Source files and LID files.

use dy_base::{Items, Name, Text};
use dy_tree::Token;

/// A source file: the module that its header names, and the tokens after its header.
#[derive(Debug, Drop)]
pub struct Source {
    pub module: Name,
    pub tokens: Items<Token>,
}

/// A LID file: the library that it describes, and the names of the library's source files.
#[derive(Debug, Drop)]
pub struct Lid {
    pub library: Name,
    pub files: Items<Text>,
}
