//! Why a call did nothing, and what is wrong with bytes.

ghost use Rattle.std.specs.Prelude.{◌≡◌};
ghost use Rattle.bl_index.specs.declared.error.IndexErr.TheVariants.{OutOfMemory};

use bl_code::CodeErr;
use std::alloc::{AllocError, AllocFailed};

/// Why a call did nothing: what it was given is as it was.
#[derive(Clone, Copy, Debug, Drop, PartialEq, Eq)]
pub enum IndexErr {
    /// The bytes of the references into this file would reach 2^64.
    Overflow(u64),
    /// Memory ran out.
    OutOfMemory,
}

impl From<CodeErr> for IndexErr {
    ghost from_gives = { λ _ e. e ≡ OutOfMemory };

    fn from(_: CodeErr) -> IndexErr {
        IndexErr::OutOfMemory
    }
}

impl From<AllocError> for IndexErr {
    ghost from_gives = { λ _ e. e ≡ OutOfMemory };

    fn from(_: AllocError) -> IndexErr {
        IndexErr::OutOfMemory
    }
}

impl<T: Drop> From<AllocFailed<T>> for IndexErr {
    ghost from_gives = { λ _ e. e ≡ OutOfMemory };

    fn from(_: AllocFailed<T>) -> IndexErr {
        IndexErr::OutOfMemory
    }
}

/// The rule that the bytes of a blob index break.
#[derive(Clone, Copy, Debug, Drop, PartialEq, Eq)]
pub enum IndexRule {
    /// There is no byte.
    Empty,
    /// The first byte is not 01.
    Kind,
    /// A number is cut, or 2^64 or more.
    Number,
    /// The compression byte is absent, or not 00.
    Compression,
    /// Bytes follow.
    Trailing,
}

/// The first fault, and the offset in the bytes of the field that has it.
#[derive(Clone, Copy, Debug, Drop, PartialEq, Eq)]
pub struct BadIndex {
    pub rule: IndexRule,
    pub place: u64,
}
