//! Why a library, a file or a command is refused.

ghost use Rattle.std.specs.Prelude.{◌≡◌};

use crate::items::Items;
use crate::kind::Kind;
use crate::text::Text;
use std::alloc::{AllocError, AllocFailed};

/// A place in the sources of a library.
#[derive(Clone, Copy, Debug, PartialEq, Eq)]
pub struct Place {
    /// The file, by its place among the library's files, from 0.
    pub file: u32,
    /// The byte, from 0.
    pub offset: u32,
}

/// What is wrong, where, and what is shown with it.
#[derive(Debug, Drop)]
pub struct Fault {
    pub kind: Kind,
    /// The subject of the refusal: a library, or the name of a file.
    pub library: Text,
    pub place: Option<Place>,
    /// All shown items in order, numbers as decimal texts.
    pub shown: Items<Text>,
    /// The offset in an image, or the body and the instruction in code, and else nothing.
    pub numbers: Items<u64>,
}

/// Why a call gave nothing: a fault in its input, or want of memory.
#[derive(Debug, Drop)]
pub enum Refusal {
    Fault(Fault),
    Memory,
}

/// Why a call that reads files gave nothing.
#[derive(Debug, Drop)]
pub enum Stop {
    Refused(Fault),
    /// The file of this name could not be read or written.
    FileFault(Text),
    Memory,
}

impl From<AllocError> for Refusal {
    ghost use Rattle.std.specs.Prelude.{◌≡◌};
    ghost use Rattle.dy_base.specs.declared.fault.Refusal.TheVariants.{Memory};

    ghost from_gives = { λ _ refusal. refusal ≡ Memory };

    fn from(_error: AllocError) -> Refusal {
        Refusal::Memory
    }
}

impl<T: Drop> From<AllocFailed<T>> for Refusal {
    ghost use Rattle.std.specs.Prelude.{◌≡◌};
    ghost use Rattle.dy_base.specs.declared.fault.Refusal.TheVariants.{Memory};

    ghost from_gives = { λ _ refusal. refusal ≡ Memory };

    fn from(_error: AllocFailed<T>) -> Refusal {
        Refusal::Memory
    }
}

impl From<AllocError> for Stop {
    ghost use Rattle.std.specs.Prelude.{◌≡◌};
    ghost use Rattle.dy_base.specs.declared.fault.Stop.TheVariants.{Memory};

    ghost from_gives = { λ _ stop. stop ≡ Memory };

    fn from(_error: AllocError) -> Stop {
        Stop::Memory
    }
}

impl<T: Drop> From<AllocFailed<T>> for Stop {
    ghost use Rattle.std.specs.Prelude.{◌≡◌};
    ghost use Rattle.dy_base.specs.declared.fault.Stop.TheVariants.{Memory};

    ghost from_gives = { λ _ stop. stop ≡ Memory };

    fn from(_error: AllocFailed<T>) -> Stop {
        Stop::Memory
    }
}
