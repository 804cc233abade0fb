//! A list of parameters that was read.

use dy_read_shapes::keys_read::KeysRead;
use dy_tree::{Required, Token};

/// The parameters that stand between brackets.
#[derive(Drop)]
pub struct ListedRead {
    pub required: Vec<Required>,
    pub next: Option<Token>,
    pub rest: Option<Token>,
    pub keys: Option<KeysRead>,
}
