//! Why the logs could not be looked through.

ghost use Rattle.std.specs.Prelude.{◌≡◌};
ghost use Rattle.bl_main.specs.declared.error.LookErr.TheVariants.{OutOfMemory};

use bl_records::RecordErr;
use bl_site::SiteErr;
use std::alloc::{AllocError, AllocFailed};
use std::fmt;

/// Why the logs could not be looked through.
#[derive(Drop)]
pub enum LookErr {
    /// The folder could not be read.
    Disk,
    /// Memory ran out.
    OutOfMemory,
}

impl fmt::Display for LookErr {
    ghost use Rattle.std.specs.Prelude.{Some};
    ghost use Rattle.bl_main.specs.Causes.{words_of};

    ghost output = { λ error. Some (words_of error) };

    fn fmt<W: fmt::Write>(&self, f: &mut fmt::Formatter<W>) -> fmt::Result {
        match self {
            LookErr::Disk => write!(f, "the folder could not be read"),
            LookErr::OutOfMemory => write!(f, "memory ran out"),
        }
    }
}

impl From<AllocError> for LookErr {
    ghost from_gives = { λ _ e. e ≡ OutOfMemory };

    fn from(_: AllocError) -> LookErr {
        LookErr::OutOfMemory
    }
}

impl<T: Drop> From<AllocFailed<T>> for LookErr {
    ghost from_gives = { λ _ e. e ≡ OutOfMemory };

    fn from(_: AllocFailed<T>) -> LookErr {
        LookErr::OutOfMemory
    }
}

impl From<SiteErr> for LookErr {
    ghost use Rattle.bl_main.specs.Causes.{of_site};

    ghost from_gives = { λ error e. e ≡ of_site error };

    fn from(error: SiteErr) -> LookErr {
        match error {
            SiteErr::DiskFailed | SiteErr::TellFailed => LookErr::Disk,
            SiteErr::OutOfMemory => LookErr::OutOfMemory,
        }
    }
}

impl From<RecordErr> for LookErr {
    ghost use Rattle.bl_main.specs.Causes.{of_records};

    ghost from_gives = { λ error e. e ≡ of_records error };

    fn from(error: RecordErr) -> LookErr {
        match error {
            RecordErr::Disk => LookErr::Disk,
            RecordErr::OutOfMemory => LookErr::OutOfMemory,
        }
    }
}
