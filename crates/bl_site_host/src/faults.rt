//! What can go wrong on the host, and how it is counted.
ghost use Rattle.std.specs.Prelude.{◌≡◌, ◌≢◌, ◌⊎◌, Ok, Err, IfErr, IsErr, IsErrOf, IsTrue, MatchResult};
ghost use Rattle.bl_site.specs.Causes.{HasDiskCause};
ghost use Rattle.bl_site.specs.declared.site.SiteErr.TheVariants.{OutOfMemory};
ghost use Rattle.bl_site_host.specs.Faults.{IsCounted};
ghost use Rattle.bl_site_host.specs.declared.faults.Fault.TheVariants.{Disk, Memory};

use bl_site::SiteErr;
use std::alloc::{AllocError, AllocFailed};
use std::io::{self, ErrorKind};

#[derive(Clone, Copy)]
pub(crate) enum Fault {
    // The system failed, for this reason.
    Disk(io::Error),
    // Want of memory, before anything was changed.
    Memory,
}

// Of a call before anything was changed.
impl From<io::Error> for Fault {
    ghost use Rattle.bl_site_host.specs.Faults.{fault_of};

    ghost from_gives = { λ e fault. fault ≡ fault_of e };

    fn from(e: io::Error) -> Self {
        match e.kind() {
            ErrorKind::OutOfMemory => Fault::Memory,
            _ => Fault::Disk(e),
        }
    }
}

impl From<AllocError> for Fault {
    ghost from_gives = { λ _ e. e ≡ Memory };

    fn from(_: AllocError) -> Self {
        Fault::Memory
    }
}

impl<T: Drop> From<AllocFailed<T>> for Fault {
    ghost from_gives = { λ _ e. e ≡ Memory };

    fn from(_: AllocFailed<T>) -> Self {
        Fault::Memory
    }
}

// Of a call that may have changed something: it is never for want of memory.
pub(crate) fn changed<T: Drop>(done: io::Result<T>) -> Result<T, Fault>
    ensures answered { MatchResult done (λ value. result ≡ Ok value) (λ e. result ≡ Err (Disk e)) }
    ensures disk { IfErr result (λ fault. fault ≢ Memory) }
{
    match done {
        Ok(value) => Ok(value),
        Err(e) => Err(Fault::Disk(e)),
    }
}

// Counts a failure of the system.
pub(crate) fn counted<T: Drop>(faults: &mut u64, done: Result<T, Fault>) -> Result<T, SiteErr>
    ensures answered { IsCounted faults.old faults.new done result }
    ensures cause { HasDiskCause faults.old faults.new result }
    ensures no_fault { IsErrOf result OutOfMemory → faults.new ≡ faults.old }
{
    match done {
        Ok(value) => Ok(value),
        Err(Fault::Memory) => Err(SiteErr::OutOfMemory),
        Err(Fault::Disk(_)) => {
            *faults = faults.saturating_add(1);
            Err(SiteErr::DiskFailed)
        }
    }
}

// Puts a file on the disk. Once that has failed, the system may have dropped bytes that it still shows, and a second try
// would wrongly succeed: so from then on nothing is answered as if it were on the disk.
pub(crate) fn synced(lost: &mut bool, done: io::Result<()>) -> Result<(), Fault>
    ensures for_good { IsTrue lost.old → IsErr result }
    ensures marked { IsErr result → IsTrue lost.new }
    ensures only { IsTrue lost.new → (IsTrue lost.old ⊎ IsErr done) }
    ensures done { IsErr done → IsErr result }
    ensures disk { IfErr result (λ fault. fault ≢ Memory) }
{
    if let Err(e) = done {
        *lost = true;
        return Err(Fault::Disk(e));
    }
    if *lost {
        return Err(Fault::Disk(io::Error::new(ErrorKind::Other, "an earlier sync failed")));
    }
    Ok(())
}
