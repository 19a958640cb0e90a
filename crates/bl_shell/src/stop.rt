//! Why a run stops before the script's end.

ghost use Rattle.std.specs.Prelude.{◌≡◌};
ghost use Rattle.bl_shell.specs.Causes.{stop_of, stop_of_store};
ghost use Rattle.bl_shell.specs.declared.stop.Stop.TheVariants.{Read, OutOfMemory};

use bl_code::{CodeErr, Octets};
use bl_logstore::StoreErr;
use bl_script::ScriptErr;
use bl_site::{SiteErr, SourceErr};
use std::alloc::{AllocError, AllocFailed};

// Why a run stops, with what the line says that is told of it.
#[derive(Drop)]
pub(crate) enum Stop {
    // The script could not be read on.
    Read,
    // A reply could not be told.
    Tell,
    // The folder could not be read or written.
    Disk,
    OutOfMemory,
    // The script has more than 2^40 bytes.
    Long,
    // The file of this name is damaged at this place.
    Corrupt(Octets, u64),
    // This limit is reached.
    Full(u64),
}

impl From<SiteErr> for Stop {
    ghost from_gives = { λ e s. s ≡ stop_of e };

    fn from(error: SiteErr) -> Stop {
        match error {
            SiteErr::DiskFailed => Stop::Disk,
            SiteErr::TellFailed => Stop::Tell,
            SiteErr::OutOfMemory => Stop::OutOfMemory,
        }
    }
}

impl From<StoreErr> for Stop {
    ghost from_gives = { λ e s. s ≡ stop_of_store e };

    fn from(error: StoreErr) -> Stop {
        match error {
            StoreErr::Disk | StoreErr::Broken => Stop::Disk,
            StoreErr::OutOfMemory => Stop::OutOfMemory,
            StoreErr::Corrupt(name, place) => Stop::Corrupt(name, place),
            StoreErr::Full(number) => Stop::Full(number),
        }
    }
}

impl From<SourceErr> for Stop {
    ghost from_gives = { λ _ s. s ≡ Read };

    fn from(_: SourceErr) -> Stop {
        Stop::Read
    }
}

impl From<CodeErr> for Stop {
    ghost from_gives = { λ _ s. s ≡ OutOfMemory };

    fn from(_: CodeErr) -> Stop {
        Stop::OutOfMemory
    }
}

impl From<ScriptErr> for Stop {
    ghost from_gives = { λ _ s. s ≡ OutOfMemory };

    fn from(_: ScriptErr) -> Stop {
        Stop::OutOfMemory
    }
}

impl From<AllocError> for Stop {
    ghost from_gives = { λ _ s. s ≡ OutOfMemory };

    fn from(_: AllocError) -> Stop {
        Stop::OutOfMemory
    }
}

impl<T: Drop> From<AllocFailed<T>> for Stop {
    ghost from_gives = { λ _ s. s ≡ OutOfMemory };

    fn from(_: AllocFailed<T>) -> Stop {
        Stop::OutOfMemory
    }
}
