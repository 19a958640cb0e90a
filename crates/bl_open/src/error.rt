//! Why an opening was not done.

ghost use Rattle.std.specs.Prelude.{◌≡◌};
ghost use Rattle.bl_open.specs.declared.error.OpenErr.TheVariants.{OutOfMemory};

use bl_build::BuildErr;
use bl_code::{CodeErr, Octets};
use bl_entry::EntryErr;
use bl_manifest::ManifestErr;
use bl_names::NameErr;
use bl_out::JobErr;
use bl_records::RecordErr;
use bl_site::SiteErr;
use bl_wal::WalErr;
use std::alloc::{AllocError, AllocFailed};
use thiserror::Error;

/// Why a folder was not opened.
#[derive(Debug, Drop, Error)]
pub enum OpenErr {
    /// The folder failed.
    #[error("the folder failed")]
    Disk,
    /// A file is missing or damaged: its name, and the place in it.
    #[error("a file is damaged at byte {1}")]
    Corrupt(Octets, u64),
    /// There is no number for a file more: this one was next.
    #[error("no file number is left: {0} was next")]
    Full(u64),
    /// An option that a store keeps from its creation on was asked for with another value.
    #[error("option {option} is {stored} in this store, and {asked} was asked for")]
    Differ { option: u8, stored: u64, asked: u64 },
    /// Memory ran out.
    #[error("memory ran out")]
    OutOfMemory,
}

impl From<SiteErr> for OpenErr {
    ghost use Rattle.bl_open.specs.Causes.{of_site};

    ghost from_gives = { λ e w. w ≡ of_site e };

    fn from(error: SiteErr) -> OpenErr {
        match error {
            SiteErr::DiskFailed | SiteErr::TellFailed => OpenErr::Disk,
            SiteErr::OutOfMemory => OpenErr::OutOfMemory,
        }
    }
}

impl From<RecordErr> for OpenErr {
    ghost use Rattle.bl_open.specs.Causes.{of_records};

    ghost from_gives = { λ e w. w ≡ of_records e };

    fn from(error: RecordErr) -> OpenErr {
        match error {
            RecordErr::Disk => OpenErr::Disk,
            RecordErr::OutOfMemory => OpenErr::OutOfMemory,
        }
    }
}

impl From<WalErr> for OpenErr {
    ghost use Rattle.bl_open.specs.Causes.{of_wal};

    ghost from_gives = { λ e w. w ≡ of_wal e };

    fn from(error: WalErr) -> OpenErr {
        match error {
            WalErr::Disk => OpenErr::Disk,
            WalErr::Corrupt(name, place) => OpenErr::Corrupt(name, place),
            WalErr::OutOfMemory => OpenErr::OutOfMemory,
        }
    }
}

impl From<ManifestErr> for OpenErr {
    ghost use Rattle.bl_open.specs.Causes.{of_manifest};

    ghost from_gives = { λ e w. w ≡ of_manifest e };

    fn from(error: ManifestErr) -> OpenErr {
        match error {
            ManifestErr::Disk => OpenErr::Disk,
            ManifestErr::Corrupt(name, place) => OpenErr::Corrupt(name, place),
            ManifestErr::OutOfMemory => OpenErr::OutOfMemory,
        }
    }
}

impl From<JobErr> for OpenErr {
    ghost use Rattle.bl_open.specs.Causes.{of_job};

    ghost from_gives = { λ e w. w ≡ of_job e };

    fn from(error: JobErr) -> OpenErr {
        match error {
            JobErr::Disk => OpenErr::Disk,
            JobErr::Corrupt(name, place) => OpenErr::Corrupt(name, place),
            JobErr::Full(next) => OpenErr::Full(next),
            JobErr::OutOfMemory => OpenErr::OutOfMemory,
        }
    }
}

impl From<AllocError> for OpenErr {
    ghost from_gives = { λ _ e. e ≡ OutOfMemory };

    fn from(_: AllocError) -> OpenErr {
        OpenErr::OutOfMemory
    }
}

impl From<CodeErr> for OpenErr {
    ghost from_gives = { λ _ e. e ≡ OutOfMemory };

    fn from(_: CodeErr) -> OpenErr {
        OpenErr::OutOfMemory
    }
}

impl From<NameErr> for OpenErr {
    ghost from_gives = { λ _ e. e ≡ OutOfMemory };

    fn from(_: NameErr) -> OpenErr {
        OpenErr::OutOfMemory
    }
}

impl From<BuildErr> for OpenErr {
    ghost from_gives = { λ _ e. e ≡ OutOfMemory };

    fn from(_: BuildErr) -> OpenErr {
        OpenErr::OutOfMemory
    }
}

impl From<EntryErr> for OpenErr {
    ghost from_gives = { λ _ e. e ≡ OutOfMemory };

    fn from(_: EntryErr) -> OpenErr {
        OpenErr::OutOfMemory
    }
}

impl<T: Drop> From<AllocFailed<T>> for OpenErr {
    ghost from_gives = { λ _ e. e ≡ OutOfMemory };

    fn from(_: AllocFailed<T>) -> OpenErr {
        OpenErr::OutOfMemory
    }
}
