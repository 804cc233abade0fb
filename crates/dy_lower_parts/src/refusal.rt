//! Why no code is made.

use std::alloc::{AllocError, AllocFailed};

/// Why no code is made of a term. There is no other reason than want of memory: each term has its
/// code, as it is defined.
#[derive(Clone, Copy, Debug)]
pub enum Refusal {
    /// Memory ran out. No memory holds so many instructions that their number does not fit.
    Memory,
}

impl From<AllocError> for Refusal {
    fn from(_error: AllocError) -> Refusal {
        Refusal::Memory
    }
}

impl<T: Drop> From<AllocFailed<T>> for Refusal {
    fn from(_error: AllocFailed<T>) -> Refusal {
        Refusal::Memory
    }
}
