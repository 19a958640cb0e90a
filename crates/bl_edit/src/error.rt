//! Why nothing was made, and what is wrong with bytes.

ghost use Rattle.std.specs.Prelude.{◌≡◌};
ghost use Rattle.bl_edit.specs.declared.error.BadEdit.TheVariants.{OutOfMemory};

use bl_code::CodeErr;
use std::alloc::{AllocError, AllocFailed};

/// Why nothing was made: what the call was given is as it was.
#[derive(Clone, Copy, Debug, Drop, PartialEq, Eq)]
pub enum EditErr {
    /// Memory ran out.
    OutOfMemory,
}

impl From<AllocError> for EditErr {
    fn from(_: AllocError) -> EditErr {
        EditErr::OutOfMemory
    }
}

impl<T: Drop> From<AllocFailed<T>> for EditErr {
    fn from(_: AllocFailed<T>) -> EditErr {
        EditErr::OutOfMemory
    }
}

impl From<CodeErr> for EditErr {
    fn from(_: CodeErr) -> EditErr {
        EditErr::OutOfMemory
    }
}

/// Why bytes are no edit.
#[derive(Clone, Copy, Debug, PartialEq, Eq)]
pub enum BadEdit {
    /// The tag of the first field at fault, or 0 where the tag itself is cut, and the place of that tag: its
    /// offset in the bytes.
    At(u32, u64),
    /// Memory ran out before a field at fault was found.
    OutOfMemory,
}

impl From<EditErr> for BadEdit {
    ghost from_gives = { λ _ e. e ≡ OutOfMemory };

    fn from(_: EditErr) -> BadEdit {
        BadEdit::OutOfMemory
    }
}
