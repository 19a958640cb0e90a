//! Why a call of a store failed.

ghost use Rattle.std.specs.Prelude.{◌≡◌};
ghost use Rattle.bl_logstore.specs.Causes.{error_of, error_of_log};
ghost use Rattle.bl_logstore.specs.declared.error.StoreErr.TheVariants.{OutOfMemory};

use bl_code::{CodeErr, Octets};
use bl_names::NameErr;
use bl_site::SiteErr;
use bl_wal::WalErr;
use std::alloc::{AllocError, AllocFailed};

/// Why a call failed.
#[derive(Drop)]
pub enum StoreErr {
    /// The folder could not be read or written.
    Disk,
    /// Memory ran out.
    OutOfMemory,
    /// The file of this name is damaged at this place, or stands where no such file may.
    Corrupt(Octets, u64),
    /// A limit is reached: no sequence is left behind this last one, or this number is no file's, 10^15.
    Full(u64),
    /// The store is broken: a writing call failed once it had asked the folder. It is to be opened again.
    Broken,
}

impl From<SiteErr> for StoreErr {
    ghost from_gives = { λ e s. s ≡ error_of e };

    fn from(error: SiteErr) -> StoreErr {
        match error {
            SiteErr::DiskFailed | SiteErr::TellFailed => StoreErr::Disk,
            SiteErr::OutOfMemory => StoreErr::OutOfMemory,
        }
    }
}

impl From<WalErr> for StoreErr {
    ghost from_gives = { λ e s. s ≡ error_of_log e };

    fn from(error: WalErr) -> StoreErr {
        match error {
            WalErr::Disk => StoreErr::Disk,
            WalErr::Corrupt(name, place) => StoreErr::Corrupt(name, place),
            WalErr::OutOfMemory => StoreErr::OutOfMemory,
        }
    }
}

impl From<NameErr> for StoreErr {
    ghost from_gives = { λ _ s. s ≡ OutOfMemory };

    fn from(_: NameErr) -> StoreErr {
        StoreErr::OutOfMemory
    }
}

impl From<CodeErr> for StoreErr {
    ghost from_gives = { λ _ s. s ≡ OutOfMemory };

    fn from(_: CodeErr) -> StoreErr {
        StoreErr::OutOfMemory
    }
}

impl From<AllocError> for StoreErr {
    ghost from_gives = { λ _ s. s ≡ OutOfMemory };

    fn from(_: AllocError) -> StoreErr {
        StoreErr::OutOfMemory
    }
}

impl<T: Drop> From<AllocFailed<T>> for StoreErr {
    ghost from_gives = { λ _ s. s ≡ OutOfMemory };

    fn from(_: AllocFailed<T>) -> StoreErr {
        StoreErr::OutOfMemory
    }
}
