//! The syncs of an opening. With them and its first name call its barrier is over.

ghost use Rattle.std.specs.Prelude.{◌≡◌, ℕ, Some, IsSome, OnOk, All};
ghost use Rattle.bl_site.specs.Disk.{folder_of, written_of};
ghost use Rattle.bl_site.specs.Calls.{LeavesOnly, Syncs};
ghost use Rattle.bl_site.specs.Quiet.{TellsNothing};
ghost use Rattle.bl_names.specs.declared.name.FileName.{FileName as File};
ghost use Rattle.bl_names.specs.declared.name.FileName.TheVariants.{Current, Log};
ghost use Rattle.bl_names.specs.Names.{HasNumber, IsNumber, current_text, manifest_name, name_of};
ghost use Rattle.bl_entry.specs.Revisions.{Map};
ghost use Rattle.bl_records.specs.Chance.{NoChanceMatch};
ghost use Rattle.bl_out.specs.Files.{file as file_in};
ghost use Rattle.bl_folder.specs.Settled.{IsSettled, IsSynced};
ghost use Rattle.bl_folder.specs.Stands.{Stands};
ghost use Rattle.bl_open.specs.Causes.{FailsByFolder};
ghost use Rattle.bl_open.specs.Keeping.{KeepsAllButLogs};
ghost use Rattle.bl_open.specs.SteadyCalls.{IsPastBarrier, KeepsAllBut};
ghost use Rattle.bl_open.specs.Barrier.{AreTheLogs, FindsFiles, LeavesFound, SyncsSome};
ghost use Rattle.bl_open.specs.Found.{Found, IsFoundAs, RestsAs};

use crate::error::OpenErr;
use crate::laws::barriers_let_disks_rest;
use crate::steady::renames_make_disks_steady;
use bl_folder::settled_disks_keep_their_files;
use bl_names::{FileName, print_name, text_names_one};
use bl_site::Site;
use std::alloc::Global;

/// Syncs a file that is in the folder. Whatever it answers, a cut meanwhile leaves a folder that one before might have
/// left, and where no name call was in doubt it finds the files that were there; a settled disk stays settled, but that after a failure a torn fragment's checksum may match by chance.
///
/// Errors: `Disk`; `OutOfMemory`.
pub(crate) fn sync_file<S: Site>(
    alloc: Global,
    site: &mut S,
    file: &FileName,
) -> Result<(), OpenErr>
    requires number { HasNumber file.now }
    requires there { S.shows → IsSome (S.disk site.old (name_of file.now)) }
    ensures done { S.shows → OnOk result (Syncs (name_of file.now) (S.disk site.old) (S.disk site.new)) }
    ensures only { S.shows → KeepsAllBut (name_of file.now) (S.disk site.old) (S.disk site.new) }
    ensures before { S.shows → LeavesOnly S.clock S.left_since site.old site.new (LeavesFound (S.may_be site.old) (S.told site.old)) }
    ensures finds { S.shows → S.certain site.old → LeavesOnly S.clock S.left_since site.old site.new (FindsFiles (S.disk site.old) (S.told site.old)) }
    ensures kept { S.shows → IsSettled (S.disk site.old) → OnOk result (IsSettled (S.disk site.new)) }
    ensures settled { S.shows → IsSettled (S.disk site.old) → NoChanceMatch (folder_of (S.disk site.new)) (written_of (S.disk site.new)) → IsSettled (S.disk site.new) }
    ensures certain { S.shows → S.certain site.old → S.certain site.new }
    ensures tells_nothing { TellsNothing S.Site site.old site.new }
    ensures fails { FailsByFolder S.Site result site.old site.new }
{
    renames_make_disks_steady();
    settled_disks_keep_their_files();
    let name = print_name(alloc, file)?;
    site.sync(name.as_str())?;
    Ok(())
}

/// Syncs the logs of these numbers, which are all that the folder has, in this order. What a cut meanwhile leaves, and
/// how a settled disk stays settled, is as for one file.
///
/// Errors: `Disk`; `OutOfMemory`.
pub(crate) fn sync_logs<S: Site>(
    alloc: Global,
    site: &mut S,
    numbers: &[u64],
) -> Result<(), OpenErr>
    requires numbers { All IsNumber numbers.now }
    requires logs { S.shows → AreTheLogs numbers.now (S.disk site.old) }
    ensures same { S.shows → OnOk result (folder_of (S.disk site.new) ≡ folder_of (S.disk site.old)) }
    ensures some { S.shows → OnOk result (SyncsSome (S.disk site.old) (S.disk site.new)) }
    ensures synced { S.shows → OnOk result ((n : ℕ) → IsNumber n → IsSynced (S.disk site.new) (Log n)) }
    ensures still { S.shows → OnOk result ((f : File) → IsSynced (S.disk site.old) f → IsSynced (S.disk site.new) f) }
    ensures only { S.shows → KeepsAllButLogs (S.disk site.old) (S.disk site.new) }
    ensures before { S.shows → LeavesOnly S.clock S.left_since site.old site.new (LeavesFound (S.may_be site.old) (S.told site.old)) }
    ensures finds { S.shows → S.certain site.old → LeavesOnly S.clock S.left_since site.old site.new (FindsFiles (S.disk site.old) (S.told site.old)) }
    ensures kept { S.shows → IsSettled (S.disk site.old) → OnOk result (IsSettled (S.disk site.new)) }
    ensures settled { S.shows → IsSettled (S.disk site.old) → NoChanceMatch (folder_of (S.disk site.new)) (written_of (S.disk site.new)) → IsSettled (S.disk site.new) }
    ensures certain { S.shows → S.certain site.old → S.certain site.new }
    ensures tells_nothing { TellsNothing S.Site site.old site.new }
    ensures fails { FailsByFolder S.Site result site.old site.new }
{
    renames_make_disks_steady();
    for number in numbers {
        sync_file(alloc, site, &FileName::Log(*number))?;
    }
    Ok(())
}

/// Syncs the manifest of this number, which is in the folder, and then the logs of these numbers, which are all that it
/// has, in this order. Whatever the folder was and whatever is answered, a cut meanwhile leaves a folder that one before
/// might have left. Where CURRENT names this manifest, the disk was settled and its folder stood for a map, it is at rest
/// at `Ok`.
///
/// Errors: `Disk`; `OutOfMemory`.
pub(crate) fn sync_found<S: Site>(
    alloc: Global,
    site: &mut S,
    manifest: u64,
    numbers: &[u64],
) -> Result<(), OpenErr>
    requires manifest { IsNumber manifest }
    requires there { S.shows → IsSome (S.disk site.old (manifest_name manifest)) }
    requires numbers { All IsNumber numbers.now }
    requires logs { S.shows → AreTheLogs numbers.now (S.disk site.old) }
    ensures same { S.shows → OnOk result (folder_of (S.disk site.new) ≡ folder_of (S.disk site.old)) }
    ensures some { S.shows → OnOk result (SyncsSome (S.disk site.old) (S.disk site.new)) }
    ensures past { S.shows → file_in (folder_of (S.disk site.old)) Current ≡ Some (current_text manifest) → OnOk result (IsPastBarrier (S.disk site.new)) }
    ensures rests { S.shows → (found : Found) (m : Map) → file_in (folder_of (S.disk site.old)) Current ≡ Some (current_text manifest) → IsFoundAs found (folder_of (S.disk site.old))
        → IsSettled (S.disk site.old) → Stands (folder_of (S.disk site.old)) m → OnOk result (RestsAs found m (S.disk site.new)) }
    ensures only { S.shows → KeepsAllButLogs (S.disk site.old) (S.disk site.new) }
    ensures before { S.shows → LeavesOnly S.clock S.left_since site.old site.new (LeavesFound (S.may_be site.old) (S.told site.old)) }
    ensures finds { S.shows → S.certain site.old → LeavesOnly S.clock S.left_since site.old site.new (FindsFiles (S.disk site.old) (S.told site.old)) }
    ensures settled { S.shows → IsSettled (S.disk site.old) → NoChanceMatch (folder_of (S.disk site.new)) (written_of (S.disk site.new)) → IsSettled (S.disk site.new) }
    ensures certain { S.shows → S.certain site.old → S.certain site.new }
    ensures tells_nothing { TellsNothing S.Site site.old site.new }
    ensures fails { FailsByFolder S.Site result site.old site.new }
{
    text_names_one();
    renames_make_disks_steady();
    barriers_let_disks_rest();
    sync_file(alloc, site, &FileName::Manifest(manifest))?;
    sync_logs(alloc, site, numbers)
}
