//! Keyword parameters that were read.

use dy_tree::Key;

/// Keyword parameters, and whether others are taken.
#[derive(Drop)]
pub struct KeysRead {
    pub keys: Vec<Key>,
    pub takes_all: bool,
}
