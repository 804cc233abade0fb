//! What is found of the methods of a call.

use dy_base::{Items, MethodId};

/// The methods that are applicable to some arguments.
#[derive(Debug, Drop)]
pub struct Sorted {
    /// The sorted ones: each precedes all that come after it here and in `rest`.
    pub first: Items<MethodId>,
    /// Those that are ambiguous, in the order of the program: none of them precedes all others of
    /// them.
    pub rest: Items<MethodId>,
}
