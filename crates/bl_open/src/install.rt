//! How an opening installs what it has made: one manifest of the whole version, and CURRENT's new text.

ghost use Rattle.std.specs.Prelude.{◌≡◌, ◌⊎◌, ℕ, List, ◌<◌, ◌≤◌, ◌^◌, false, [], ◌∷◌, Some, IfOk, OnOk};
ghost use Rattle.bl_site.specs.Disk.{Name};
ghost use Rattle.bl_site.specs.Calls.{LeavesOnly};
ghost use Rattle.bl_site.specs.Quiet.{TellsNothing};
ghost use Rattle.bl_names.specs.declared.name.FileName.TheVariants.{Current, Manifest as ManifestName, Temp};
ghost use Rattle.bl_names.specs.Names.{IsNumber, manifest_name, name_of};
ghost use Rattle.bl_edit.specs.Options.{AreInRange};
ghost use Rattle.bl_build.specs.Snapshots.{snapshot};
ghost use Rattle.bl_wal.specs.LogFile.{new_log};
ghost use Rattle.bl_wal.specs.Held.{HoldsBatches};
ghost use Rattle.bl_manifest.specs.Held.{Edits, HoldsEdits};
ghost use Rattle.bl_manifest.specs.ManifestFile.{ManifestFile};
ghost use Rattle.bl_folder.specs.Holding.{Holding};
ghost use Rattle.bl_folder.specs.Settled.{IsSettled};
ghost use Rattle.bl_out.specs.Quiet.{TouchesOnly};
ghost use Rattle.bl_open.specs.Causes.{FailsByFolder};
ghost use Rattle.bl_open.specs.Steady.{Maps, IsSteady};
ghost use Rattle.bl_open.specs.SteadyCalls.{IsReady, begun};
ghost use Rattle.bl_open.specs.SteadyCuts.{LeavesStanding};
ghost use Rattle.bl_open.specs.Synced.{AreFilesBelow, as_synced};
ghost use Rattle.bl_open.specs.Installations.{Begins, HasCurrent, IsInstalled};
ghost use Rattle.bl_open.specs.Found.{Found, IsLeftAs, IsSpareFor, RestsAs};

use crate::current::{rename_current, write_temp};
use crate::error::OpenErr;
use crate::files::make_manifest;
use crate::laws::{barriers_let_disks_rest, stores_begin};
use crate::steady::{renames_make_disks_steady, steady_disks_stand};
use bl_build::{Standing, Version, snapshot_edit};
use bl_edit::Options;
use bl_manifest::{Manifest, manifests_are_read};
use bl_names::{FileName, names_one, print_current, print_name};
use bl_site::Site;
use std::alloc::Global;

// Options are in their ranges.
pub(crate) fn show_range(options: &Options)
    ensures { AreInRange options.now }
{
    let _threshold = options.min_blob_size;
}

/// Lets CURRENT name the manifest of this number, from 1 to 10^15 - 1: its text is written to the temporary file of the
/// same number, which is synced and renamed to CURRENT. Whatever is answered, CURRENT is as it was, or names the
/// manifest. Where all else that a store stands on is there, the disk is steady at `Ok`, also where some tables and blob
/// files only count as synced; and a cut meanwhile leaves the map that was found.
///
/// Errors: `Disk` and `OutOfMemory`.
pub(crate) fn name_manifest<S: Site>(
    alloc: Global,
    site: &mut S,
    number: u64,
) -> Result<(), OpenErr>
    requires number { IsNumber number }
    ensures current { S.shows → OnOk result (HasCurrent number (S.disk site.new)) }
    ensures either { S.shows → (S.disk site.new (name_of Current) ≡ S.disk site.old (name_of Current)) ⊎ HasCurrent number (S.disk site.new) }
    ensures touches { TouchesOnly S.Site (name_of (Temp number) ∷ name_of Current ∷ []) site.old site.new }
    ensures steady { S.shows → (names : List Name) (from : ℕ) → AreFilesBelow from names → (maps : Maps) (made : ManifestFile) (edits : Edits) (log : ℕ) (h : Holding) → made.number ≡ number
        → IsReady maps (begun made edits log h 0) (as_synced names (S.disk site.old)) → OnOk result (IsSteady maps (begun made edits log h 0) (as_synced names (S.disk site.new))) }
    ensures cuts { S.shows → S.certain site.old → (maps : Maps) (made : ManifestFile) (edits : Edits) (log : ℕ) (h : Holding) → made.number ≡ number
        → IsReady maps (begun made edits log h 0) (S.disk site.old) → h.batches ≡ [] → (found : Found) → RestsAs found (maps 0) (S.disk site.old)
        → LeavesOnly S.clock S.left_since site.old site.new (LeavesStanding (IsLeftAs found (maps 0)) (S.told site.old)) }
    ensures settled { S.shows → (maps : Maps) (made : ManifestFile) (edits : Edits) (log : ℕ) (h : Holding) → made.number ≡ number → made.failed ≡ false
        → IsReady maps (begun made edits log h 0) (S.disk site.old) → (found : Found) → RestsAs found (maps 0) (S.disk site.old) → IsSettled (S.disk site.new) }
    ensures certain { S.shows → OnOk result (S.certain site.new) }
    ensures tells_nothing { TellsNothing S.Site site.old site.new }
    ensures fails { FailsByFolder S.Site result site.old site.new }
{
    names_one();
    steady_disks_stand();
    renames_make_disks_steady();
    barriers_let_disks_rest();
    let temp = print_name(alloc, &FileName::Temp(number))?;
    let current = print_name(alloc, &FileName::Current)?;
    let text = print_current(alloc, number)?;
    write_temp(site, temp.as_str(), text.as_slice())?;
    rename_current(site, temp.as_str(), current.as_str(), number)
}

/// Installs the version and what stands beside it: makes the manifest of this number, from 1 to 10^15 - 1, with one
/// record of the whole version, and lets CURRENT name it. Options and sequences are in bounds, and the next file number
/// is at most 10^15. Whatever the folder was, at `Ok` CURRENT and the manifest restore exactly this, and no name call is
/// in doubt. Whatever is answered, all but CURRENT, the manifest and the temporary file is as before, and CURRENT is as
/// it was, or names the manifest, which restores exactly this. Where the log was made and the tables and blob files are
/// there, the disk is steady at `Ok`, also where some of them only count as synced; and a cut meanwhile leaves the map
/// that was found.
///
/// Errors: `Disk` and `OutOfMemory`.
pub(crate) fn install_store<S: Site>(
    alloc: Global,
    site: &mut S,
    number: u64,
    version: &Version,
    standing: &Standing,
) -> Result<Manifest, OpenErr>
    requires number { IsNumber number }
    requires last { standing.now.last_sequence < 2 ^ 56 }
    requires next { standing.now.next_file ≤ 10 ^ 15 }
    ensures made { IfOk result (λ made. (made.number ≡ number) × (made.failed ≡ false)) }
    ensures installed { S.shows → OnOk result (IsInstalled number (record { version = version.now; standing = standing.now }) (S.disk site.new)) }
    ensures either { S.shows → (S.disk site.new (name_of Current) ≡ S.disk site.old (name_of Current)) ⊎ IsInstalled number (record { version = version.now; standing = standing.now }) (S.disk site.new) }
    ensures holds { S.shows → IfOk result (λ made. HoldsEdits (S.disk site.new) made (snapshot version.now standing.now ∷ []) 1) }
    ensures touches { TouchesOnly S.Site (manifest_name number ∷ name_of (Temp number) ∷ name_of Current ∷ []) site.old site.new }
    ensures log { S.shows → (log : ℕ) → IsNumber log → HoldsBatches (S.disk site.old) (new_log log) [] 0 → HoldsBatches (S.disk site.new) (new_log log) [] 0 }
    ensures steady { S.shows → (names : List Name) (from : ℕ) → AreFilesBelow from names → (maps : Maps) (log : ℕ) (h : Holding) → h.live ≡ record { version = version.now; standing = standing.now } → Begins maps 0 log h (as_synced names (S.disk site.old))
        → IfOk result (λ made. IsSteady maps (begun made (snapshot version.now standing.now ∷ []) log h 0) (as_synced names (S.disk site.new))) }
    ensures cuts { S.shows → S.certain site.old → (found : Found) (maps : Maps) (log : ℕ) (h : Holding) → h.live ≡ record { version = version.now; standing = standing.now } → Begins maps 0 log h (S.disk site.old)
        → RestsAs found (maps 0) (S.disk site.old) → IsSpareFor found (ManifestName number) → LeavesOnly S.clock S.left_since site.old site.new (LeavesStanding (IsLeftAs found (maps 0)) (S.told site.old)) }
    ensures settled { S.shows → (found : Found) (maps : Maps) (log : ℕ) (h : Holding) → h.live ≡ record { version = version.now; standing = standing.now } → Begins maps 0 log h (S.disk site.old)
        → RestsAs found (maps 0) (S.disk site.old) → IsSpareFor found (ManifestName number) → IsSettled (S.disk site.new) }
    ensures certain { S.shows → OnOk result (S.certain site.new) }
    ensures tells_nothing { TellsNothing S.Site site.old site.new }
    ensures fails { FailsByFolder S.Site result site.old site.new }
{
    names_one();
    manifests_are_read();
    barriers_let_disks_rest();
    show_range(&standing.options);
    let edit = snapshot_edit(alloc, version, standing)?;
    let made = make_manifest(alloc, site, number, &edit)?;
    name_manifest(alloc, site, number)?;
    Ok(made)
}
