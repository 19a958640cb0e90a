//! Why a call of this crate failed.

ghost use Rattle.std.specs.Prelude.{◌≡◌};
ghost use Rattle.bl_wal.specs.declared.error.WalErr.TheVariants.{OutOfMemory};

use bl_code::Octets;
use bl_entry::EntryErr;
use bl_names::NameErr;
use bl_records::RecordErr;
use std::alloc::AllocFailed;

/// Why a call failed.
#[derive(Drop)]
pub enum WalErr {
    /// The folder could not be read or written.
    Disk,
    /// The file of this name is damaged at this place.
    Corrupt(Octets, u64),
    /// Memory ran out.
    OutOfMemory,
}

impl<T: Drop> From<AllocFailed<T>> for WalErr {
    ghost from_gives = { λ _ w. w ≡ OutOfMemory };

    fn from(_: AllocFailed<T>) -> WalErr {
        WalErr::OutOfMemory
    }
}

impl From<EntryErr> for WalErr {
    ghost from_gives = { λ _ w. w ≡ OutOfMemory };

    fn from(_: EntryErr) -> WalErr {
        WalErr::OutOfMemory
    }
}

impl From<NameErr> for WalErr {
    ghost from_gives = { λ _ w. w ≡ OutOfMemory };

    fn from(_: NameErr) -> WalErr {
        WalErr::OutOfMemory
    }
}

impl From<RecordErr> for WalErr {
    ghost use Rattle.bl_wal.specs.Causes.{error_of};

    ghost from_gives = { λ e w. w ≡ error_of e };

    fn from(error: RecordErr) -> WalErr {
        match error {
            RecordErr::Disk => WalErr::Disk,
            RecordErr::OutOfMemory => WalErr::OutOfMemory,
        }
    }
}
