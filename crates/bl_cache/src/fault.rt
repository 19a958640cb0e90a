//! Why a file was not read.

ghost use Rattle.std.specs.Prelude.{◌≡◌};
ghost use Rattle.bl_cache.specs.declared.fault.Unread.TheVariants.{OutOfMemory};
ghost use Rattle.bl_cache.specs.Causes.{Tells};

use bl_code::{CodeErr, Octets};
use bl_entry::RunErr;
use bl_site::SiteErr;
use std::alloc::{AllocError, AllocFailed, Global};

/// Why a file was not read.
#[derive(Clone, Copy, Drop)]
pub(crate) enum Unread {
    /// The disk failed.
    Disk,
    /// It is absent, or damaged at this place.
    Damaged(u64),
    /// Memory ran out.
    OutOfMemory,
}

impl From<SiteErr> for Unread {
    ghost use Rattle.bl_cache.specs.Causes.{of_site};

    ghost from_gives = { λ e w. w ≡ of_site e };

    fn from(error: SiteErr) -> Unread {
        match error {
            SiteErr::DiskFailed | SiteErr::TellFailed => Unread::Disk,
            SiteErr::OutOfMemory => Unread::OutOfMemory,
        }
    }
}

impl From<AllocError> for Unread {
    ghost from_gives = { λ _ e. e ≡ OutOfMemory };

    fn from(_: AllocError) -> Unread {
        Unread::OutOfMemory
    }
}

impl<T: Drop> From<AllocFailed<T>> for Unread {
    ghost from_gives = { λ _ e. e ≡ OutOfMemory };

    fn from(_: AllocFailed<T>) -> Unread {
        Unread::OutOfMemory
    }
}

impl From<CodeErr> for Unread {
    ghost from_gives = { λ _ e. e ≡ OutOfMemory };

    fn from(_: CodeErr) -> Unread {
        Unread::OutOfMemory
    }
}

/// What is told of the file of this name.
pub(crate) fn told(alloc: Global, name: &str, unread: Unread) -> RunErr
    ensures { Tells unread name.now result }
{
    match unread {
        Unread::Disk => RunErr::Disk,
        Unread::Damaged(place) => match Octets::from_slice(alloc, name.as_bytes()) {
            Ok(name) => RunErr::Corrupt(name, place),
            Err(_) => RunErr::OutOfMemory,
        },
        Unread::OutOfMemory => RunErr::OutOfMemory,
    }
}
