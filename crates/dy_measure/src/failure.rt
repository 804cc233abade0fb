//! Why a program ends without its numbers.

use dy_base::Refusal;
use dy_io::WriteFail;
use std::alloc::AllocError;

/// Why something is not measured.
#[derive(Clone, Copy)]
pub(crate) enum Failure {
    /// A text has an unknown directive.
    Signal,
    /// A source has a fault, or a class has no order.
    Refused,
    /// The words do not say what is to be measured.
    Words,
    /// A file cannot be read, or it is too long.
    File,
    /// The output cannot be written.
    Output,
    /// Memory did not suffice.
    Memory,
    /// The units did not suffice.
    OutOfFuel,
}

impl Failure {
    pub(crate) fn status(self) -> u8 {
        match self {
            Failure::Signal => 1,
            Failure::Refused => 2,
            Failure::Words => 3,
            Failure::File => 4,
            Failure::Output => 5,
            Failure::Memory => 6,
            Failure::OutOfFuel => 7,
        }
    }
}

impl From<AllocError> for Failure {
    fn from(_: AllocError) -> Failure {
        Failure::Memory
    }
}

impl From<Refusal> for Failure {
    fn from(refusal: Refusal) -> Failure {
        match refusal {
            Refusal::Fault(_) => Failure::Refused,
            Refusal::Memory => Failure::Memory,
        }
    }
}

impl From<WriteFail> for Failure {
    fn from(_: WriteFail) -> Failure {
        Failure::Output
    }
}
