//! Why no version was made.

ghost use Rattle.std.specs.Prelude.{◌≡◌};
ghost use Rattle.bl_build.specs.declared.error.BadVersion.TheVariants.{OutOfMemory};

use bl_code::CodeErr;
use std::alloc::{AllocError, AllocFailed};

/// Why nothing was made: what the call was given is as it was.
#[derive(Clone, Copy, Debug, Drop, PartialEq, Eq)]
pub enum BuildErr {
    /// Memory ran out.
    OutOfMemory,
}

impl From<AllocError> for BuildErr {
    fn from(_: AllocError) -> BuildErr {
        BuildErr::OutOfMemory
    }
}

impl<T: Drop> From<AllocFailed<T>> for BuildErr {
    fn from(_: AllocFailed<T>) -> BuildErr {
        BuildErr::OutOfMemory
    }
}

impl From<CodeErr> for BuildErr {
    fn from(_: CodeErr) -> BuildErr {
        BuildErr::OutOfMemory
    }
}

/// Why no version was made. An edit that does not fit has the first refusal of these, with the number of the first
/// file at fault in the edit's order.
#[derive(Clone, Copy, Debug, Drop, PartialEq, Eq)]
pub enum BadVersion {
    /// A deleted table is not at its level in the base.
    UnknownTable(u64),
    /// An added table has the number of one that the edit leaves or that it adds before; or else an added blob file
    /// has the number of one of the base or of one that it adds before.
    Twice(u64),
    /// An added table overlaps one of its level, from level 1 on, that the edit leaves or that it adds before.
    Overlap(u64),
    /// There is garbage of a blob file that is neither in the base nor added.
    UnknownBlob(u64),
    /// The garbage of a blob file is above its totals, in count or in bytes.
    Overflow(u64),
    /// Memory ran out; it says nothing of the edit.
    OutOfMemory,
}

impl From<BuildErr> for BadVersion {
    ghost from_gives = { λ _ e. e ≡ OutOfMemory };

    fn from(_: BuildErr) -> BadVersion {
        BadVersion::OutOfMemory
    }
}
