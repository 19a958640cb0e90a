//! Why a call of a store failed.

ghost use Rattle.std.specs.Prelude.{◌≡◌};
ghost use Rattle.bl_store.specs.declared.error.StoreErr.TheVariants.{OutOfMemory};

use bl_build::BuildErr;
use bl_code::{CodeErr, Octets};
use bl_entry::{EntryErr, RunErr};
use bl_manifest::ManifestErr;
use bl_open::OpenErr;
use bl_out::JobErr;
use bl_wal::WalErr;
use std::alloc::{AllocError, AllocFailed};
use thiserror::Error;

/// Why a call of a store failed.
#[derive(Debug, Drop, Error)]
pub enum StoreErr {
    /// The folder could not be read or written.
    #[error("the folder failed")]
    Disk,
    /// Memory ran out.
    #[error("memory ran out")]
    OutOfMemory,
    /// A file is missing or damaged: its name, and the place in it.
    #[error("a file is damaged at byte {1}")]
    Corrupt(Octets, u64),
    /// A limit is reached: no sequence is left behind this last one, or this number, 10^15, is no file's.
    #[error("a limit is reached at {0}")]
    Full(u64),
    /// No snapshot has this number.
    #[error("no snapshot has the number {0}")]
    NoSnapshot(u64),
    /// No iterator has this number.
    #[error("no iterator has the number {0}")]
    NoCursor(u64),
    /// There are this many, and no more may be.
    #[error("there are {0} already")]
    Many(u64),
    /// The store is broken: a writing call failed once it had asked the folder. It is to be opened again.
    #[error("the store is broken")]
    Broken,
    /// An option that a store keeps from its creation on was asked for with another value.
    #[error("option {option} is {stored} in this store, and {asked} was asked for")]
    Differ { option: u8, stored: u64, asked: u64 },
}

impl From<WalErr> for StoreErr {
    ghost use Rattle.bl_store.specs.Causes.{of_log};

    ghost from_gives = { λ e w. w ≡ of_log e };

    fn from(error: WalErr) -> StoreErr {
        match error {
            WalErr::Disk => StoreErr::Disk,
            WalErr::Corrupt(name, place) => StoreErr::Corrupt(name, place),
            WalErr::OutOfMemory => StoreErr::OutOfMemory,
        }
    }
}

impl From<ManifestErr> for StoreErr {
    ghost use Rattle.bl_store.specs.Causes.{of_manifest};

    ghost from_gives = { λ e w. w ≡ of_manifest e };

    fn from(error: ManifestErr) -> StoreErr {
        match error {
            ManifestErr::Disk => StoreErr::Disk,
            ManifestErr::Corrupt(name, place) => StoreErr::Corrupt(name, place),
            ManifestErr::OutOfMemory => StoreErr::OutOfMemory,
        }
    }
}

impl From<JobErr> for StoreErr {
    ghost use Rattle.bl_store.specs.Causes.{of_job};

    ghost from_gives = { λ e w. w ≡ of_job e };

    fn from(error: JobErr) -> StoreErr {
        match error {
            JobErr::Disk => StoreErr::Disk,
            JobErr::Corrupt(name, place) => StoreErr::Corrupt(name, place),
            JobErr::Full(next) => StoreErr::Full(next),
            JobErr::OutOfMemory => StoreErr::OutOfMemory,
        }
    }
}

impl From<OpenErr> for StoreErr {
    ghost use Rattle.bl_store.specs.Causes.{of_opening};

    ghost from_gives = { λ e w. w ≡ of_opening e };

    fn from(error: OpenErr) -> StoreErr {
        match error {
            OpenErr::Disk => StoreErr::Disk,
            OpenErr::Corrupt(name, place) => StoreErr::Corrupt(name, place),
            OpenErr::Full(next) => StoreErr::Full(next),
            OpenErr::Differ {
                option,
                stored,
                asked,
            } => StoreErr::Differ {
                option,
                stored,
                asked,
            },
            OpenErr::OutOfMemory => StoreErr::OutOfMemory,
        }
    }
}

impl From<RunErr> for StoreErr {
    ghost use Rattle.bl_store.specs.Causes.{of_run};

    ghost from_gives = { λ e w. w ≡ of_run e };

    fn from(error: RunErr) -> StoreErr {
        match error {
            RunErr::Disk => StoreErr::Disk,
            RunErr::Corrupt(name, place) => StoreErr::Corrupt(name, place),
            RunErr::OutOfMemory => StoreErr::OutOfMemory,
        }
    }
}

impl From<CodeErr> for StoreErr {
    ghost from_gives = { λ _ e. e ≡ OutOfMemory };

    fn from(_: CodeErr) -> StoreErr {
        StoreErr::OutOfMemory
    }
}

impl From<EntryErr> for StoreErr {
    ghost from_gives = { λ _ e. e ≡ OutOfMemory };

    fn from(_: EntryErr) -> StoreErr {
        StoreErr::OutOfMemory
    }
}

impl From<BuildErr> for StoreErr {
    ghost from_gives = { λ _ e. e ≡ OutOfMemory };

    fn from(_: BuildErr) -> StoreErr {
        StoreErr::OutOfMemory
    }
}

impl From<AllocError> for StoreErr {
    ghost from_gives = { λ _ e. e ≡ OutOfMemory };

    fn from(_: AllocError) -> StoreErr {
        StoreErr::OutOfMemory
    }
}

impl<T: Drop> From<AllocFailed<T>> for StoreErr {
    ghost from_gives = { λ _ e. e ≡ OutOfMemory };

    fn from(_: AllocFailed<T>) -> StoreErr {
        StoreErr::OutOfMemory
    }
}
