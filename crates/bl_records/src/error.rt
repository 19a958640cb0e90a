//! Why a call on the records of a file failed.

ghost use Rattle.std.specs.Prelude.{◌≡◌};
ghost use Rattle.bl_records.specs.declared.error.RecordErr.TheVariants.{OutOfMemory};

use bl_log::LogErr;
use bl_site::SiteErr;
use std::alloc::{AllocError, AllocFailed};

/// Why a call on the records of a file failed.
#[derive(Drop)]
pub enum RecordErr {
    /// The folder could not be read or written.
    Disk,
    /// Memory ran out.
    OutOfMemory,
}

impl From<SiteErr> for RecordErr {
    ghost use Rattle.bl_records.specs.Causes.{error_of};

    ghost from_gives = { λ e w. w ≡ error_of e };

    fn from(error: SiteErr) -> RecordErr {
        match error {
            SiteErr::DiskFailed | SiteErr::TellFailed => RecordErr::Disk,
            SiteErr::OutOfMemory => RecordErr::OutOfMemory,
        }
    }
}

impl From<AllocError> for RecordErr {
    ghost from_gives = { λ _ w. w ≡ OutOfMemory };

    fn from(_: AllocError) -> RecordErr {
        RecordErr::OutOfMemory
    }
}

impl<T: Drop> From<AllocFailed<T>> for RecordErr {
    ghost from_gives = { λ _ w. w ≡ OutOfMemory };

    fn from(_: AllocFailed<T>) -> RecordErr {
        RecordErr::OutOfMemory
    }
}

impl From<LogErr> for RecordErr {
    ghost from_gives = { λ _ w. w ≡ OutOfMemory };

    fn from(_: LogErr) -> RecordErr {
        RecordErr::OutOfMemory
    }
}
