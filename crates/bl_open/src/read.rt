//! Parts of files, and what is told of a damaged one.

ghost use Rattle.std.specs.Prelude.{◌≡◌, ◌⊎◌, ℕ, ◌≤◌, List, [], drop, length, take, unwrap_or, Some, IfOk, IfErr, IsErrOf};
ghost use Rattle.bl_site.specs.Causes.{Rose};
ghost use Rattle.bl_site.specs.Disk.{folder_of};
ghost use Rattle.bl_site.specs.Quiet.{OnlyReads};
ghost use Rattle.bl_records.specs.Causes.{IsCause};
ghost use Rattle.bl_open.specs.declared.error.OpenErr.TheVariants.{Corrupt, Disk, OutOfMemory};

use crate::error::OpenErr;
use bl_code::Octets;
use bl_site::Site;
use std::alloc::Global;

/// The file of this name is damaged at this place; or memory ran out before that could be told.
pub(crate) fn corrupt(alloc: Global, name: &str, place: u64) -> OpenErr
    ensures { (result ≡ OutOfMemory) ⊎ (result ≡ Corrupt name.now place) }
{
    match Octets::from_slice(alloc, name.as_bytes()) {
        Ok(name) => OpenErr::Corrupt(name, place),
        Err(_) => OpenErr::OutOfMemory,
    }
}

/// Reads the bytes of a file from a place on, as many as there are and fit, and answers their number; 0 where no file has this
/// name.
///
/// Errors: `Disk`; `OutOfMemory`.
pub(crate) fn read_part<S: Site>(
    site: &mut S,
    name: &str,
    start: u64,
    into: &mut [u8],
) -> Result<usize, OpenErr>
    ensures bound { IfOk result (λ count. count ≤ length into.new) }
    ensures part { S.shows → (bytes : List ℕ) → folder_of (S.disk site.old) name.now ≡ Some bytes → IfOk result (λ count. take count into.new ≡ take (length into.old) (drop start bytes)) }
    ensures quiet { OnlyReads S.Site site.old site.new }
    ensures causes { IfErr result (IsCause Disk OutOfMemory) }
    ensures disk { IsErrOf result Disk → Rose (S.disk_faults site.old) (S.disk_faults site.new) }
{
    Ok(site.read_at(name, start, into)?.unwrap_or(0))
}

/// The length of a file; 0 where no file has this name.
///
/// Errors: `Disk`; `OutOfMemory`.
pub(crate) fn length_of<S: Site>(site: &mut S, name: &str) -> Result<u64, OpenErr>
    ensures length { S.shows → IfOk result (λ count. count ≡ length (unwrap_or (folder_of (S.disk site.old) name.now) [])) }
    ensures quiet { OnlyReads S.Site site.old site.new }
    ensures causes { IfErr result (IsCause Disk OutOfMemory) }
    ensures disk { IsErrOf result Disk → Rose (S.disk_faults site.old) (S.disk_faults site.new) }
{
    Ok(site.len(name)?.unwrap_or(0))
}
