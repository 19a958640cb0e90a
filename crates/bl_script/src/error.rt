//! Why a call of this crate gave up.

use bl_code::CodeErr;
use std::alloc::{AllocError, AllocFailed};

/// Why a call gave up: nothing else can fail.
#[derive(Clone, Copy, Debug, Drop, PartialEq, Eq)]
pub enum ScriptErr {
    /// Memory ran out.
    OutOfMemory,
}

impl From<AllocError> for ScriptErr {
    fn from(_: AllocError) -> ScriptErr {
        ScriptErr::OutOfMemory
    }
}

impl<T: Drop> From<AllocFailed<T>> for ScriptErr {
    fn from(_: AllocFailed<T>) -> ScriptErr {
        ScriptErr::OutOfMemory
    }
}

impl From<CodeErr> for ScriptErr {
    fn from(_: CodeErr) -> ScriptErr {
        ScriptErr::OutOfMemory
    }
}
