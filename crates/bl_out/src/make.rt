//! A file is made, and put on the disk.

ghost use Rattle.std.specs.Prelude.{◌≡◌, ◌≤◌, [], ◌∷◌, IsSome, IfErr, IsErrOf, OnOk};
ghost use Rattle.bl_site.specs.Calls.{Creates, Syncs};
ghost use Rattle.bl_site.specs.Causes.{Rose};
ghost use Rattle.bl_site.specs.Quiet.{TellsNothing};
ghost use Rattle.bl_out.specs.Causes.{IsSealCause};
ghost use Rattle.bl_out.specs.Quiet.{TouchesOnly};
ghost use Rattle.bl_out.specs.declared.error.JobErr.TheVariants.{Disk};

use crate::error::JobErr;
use bl_site::Site;

/// The file of this name is made, empty. It takes no memory of its own.
///
/// Errors: `Disk`, after which it may be made or not; `OutOfMemory` of the folder.
pub(crate) fn create<S: Site>(site: &mut S, name: &str) -> Result<(), JobErr>
    ensures created { S.shows → OnOk result (Creates name.now (S.disk site.old) (S.disk site.new)) }
    ensures certain { S.shows → OnOk result (S.certain site.new) }
    ensures touches { TouchesOnly S.Site (name.now ∷ []) site.old site.new }
    ensures asked { Rose (S.changes site.old) (S.changes site.new) }
    ensures tells_nothing { TellsNothing S.Site site.old site.new }
    ensures causes { IfErr result IsSealCause }
    ensures disk { IsErrOf result Disk → Rose (S.disk_faults site.old) (S.disk_faults site.new) }
{
    site.create(name)?;
    Ok(())
}

/// All bytes of the file, which is in the folder, are put on the disk. It takes no memory of its own.
///
/// Errors: `Disk`, after which the bytes that were not synced may read as any others; `OutOfMemory` of the folder.
pub(crate) fn sync<S: Site>(site: &mut S, name: &str) -> Result<(), JobErr>
    requires { S.shows → IsSome (S.disk site.old name.now) }
    ensures synced { S.shows → OnOk result (Syncs name.now (S.disk site.old) (S.disk site.new)) }
    ensures certain { S.shows → S.certain site.old → S.certain site.new }
    ensures touches { TouchesOnly S.Site (name.now ∷ []) site.old site.new }
    ensures asked { Rose (S.changes site.old) (S.changes site.new) }
    ensures tells_nothing { TellsNothing S.Site site.old site.new }
    ensures causes { IfErr result IsSealCause }
    ensures disk { IsErrOf result Disk → Rose (S.disk_faults site.old) (S.disk_faults site.new) }
{
    site.sync(name)?;
    Ok(())
}
