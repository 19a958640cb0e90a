//! Why a call did nothing.

use std::alloc::AllocError;

/// Why nothing was made or written: what the call was given is as it was.
#[derive(Clone, Copy, Debug, Drop, PartialEq, Eq)]
pub enum CodeErr {
    /// Memory ran out.
    OutOfMemory,
}

impl From<AllocError> for CodeErr {
    fn from(_: AllocError) -> CodeErr {
        CodeErr::OutOfMemory
    }
}
