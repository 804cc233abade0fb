//! Parameters and results in front, and what stands behind them.

use dy_tree::{Fragment, Parameters};

/// Parameters and results, and what stands behind them.
#[derive(Drop)]
pub struct SignatureFront<'a> {
    pub parameters: Parameters,
    /// Whether no keyword parameter has a default value.
    pub is_plain: bool,
    pub rest: &'a [Fragment],
}
