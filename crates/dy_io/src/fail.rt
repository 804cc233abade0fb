//! Why a read or a write did not happen.

use thiserror::Error;

/// Why a file could not be read.
#[derive(Clone, Copy, Debug, PartialEq, Eq, Error)]
pub enum ReadFail {
    /// The file is there and could not be opened or read.
    #[error("the file could not be read")]
    Failed,
    #[error("out of memory")]
    Memory,
}

/// Why bytes could not be written.
#[derive(Clone, Copy, Debug, PartialEq, Eq, Error)]
pub enum WriteFail {
    #[error("the bytes could not be written")]
    Failed,
    #[error("out of memory")]
    Memory,
}
