//! Why a library is not lowered.

/// Why a library is not lowered.
#[derive(Clone, Copy, Debug)]
pub enum Refusal {
    /// Memory ran out. No memory holds so much code that its numbers have no place.
    Memory,
    /// A term of the library is of a kind that has no code yet.
    NotYet,
}
