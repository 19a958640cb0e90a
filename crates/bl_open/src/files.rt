//! The files that an opening makes.

ghost use Rattle.std.specs.Prelude.{◌≡◌, ℕ, List, [], ◌∷◌, Some, IfOk, OnOk};
ghost use Rattle.bl_site.specs.Calls.{Creates, LeavesOnly};
ghost use Rattle.bl_site.specs.Disk.{Name};
ghost use Rattle.bl_site.specs.Quiet.{TellsNothing};
ghost use Rattle.bl_names.specs.declared.name.FileName.TheVariants.{Log};
ghost use Rattle.bl_names.specs.Names.{IsNumber, manifest_name};
ghost use Rattle.bl_entry.specs.Revisions.{Map};
ghost use Rattle.bl_edit.specs.Bounds.{IsEdit};
ghost use Rattle.bl_build.specs.Restoring.{restored_by};
ghost use Rattle.bl_wal.specs.LogFile.{log_name, new_log};
ghost use Rattle.bl_wal.specs.Held.{HoldsBatches};
ghost use Rattle.bl_manifest.specs.Held.{HoldsEdits};
ghost use Rattle.bl_manifest.specs.ManifestFile.{behind, new_manifest, record_bytes};
ghost use Rattle.bl_folder.specs.Holding.{Holding};
ghost use Rattle.bl_out.specs.Quiet.{TouchesOnly};
ghost use Rattle.bl_open.specs.Causes.{FailsByFolder};
ghost use Rattle.bl_open.specs.Steady.{Maps};
ghost use Rattle.bl_open.specs.SteadyCalls.{IsReady, begun};
ghost use Rattle.bl_open.specs.SteadyCuts.{LeavesStanding};
ghost use Rattle.bl_open.specs.Installations.{Begins};
ghost use Rattle.bl_open.specs.Barrier.{BeforeBarrier};
ghost use Rattle.bl_open.specs.Found.{Found, HasTables, IsLeftAs, MayBeMade, RestsAs};
ghost use Rattle.bl_open.specs.Synced.{AreFilesBelow, as_synced};

use crate::error::OpenErr;
use crate::laws::{barriers_let_disks_rest, stores_begin};
use bl_edit::Edit;
use bl_manifest::Manifest;
use bl_names::names_one;
use bl_site::Site;
use bl_wal::Wal;
use std::alloc::Global;

/// Makes an empty file. It may be the first one of an opening: a cut meanwhile leaves what one before might have left,
/// perhaps with this file besides, which is empty. It takes no memory of its own.
///
/// Errors: `Disk`, and `OutOfMemory` of the folder, after which no other file has changed.
pub(crate) fn make_file<S: Site>(site: &mut S, name: &str) -> Result<(), OpenErr>
    ensures made { S.shows → OnOk result (Creates name.now (S.disk site.old) (S.disk site.new)) }
    ensures before { S.shows → LeavesOnly S.clock S.left_since site.old site.new (BeforeBarrier name.now (S.may_be site.old) (S.told site.old)) }
    ensures touches { TouchesOnly S.Site (name.now ∷ []) site.old site.new }
    ensures certain { S.shows → OnOk result (S.certain site.new) }
    ensures tells_nothing { TellsNothing S.Site site.old site.new }
    ensures fails { FailsByFolder S.Site result site.old site.new }
{
    site.create(name)?;
    Ok(())
}

/// Makes the log of this number, from 1 to 10^15 - 1. It may be the first file of an opening, and on a fresh folder it
/// is: a cut meanwhile leaves what one before might have left, perhaps with this log besides, which is empty. A disk at
/// rest that has no such log stays at rest, whatever is answered. Tables and blob files that begin a store with it do so also where some of them
/// only count as synced.
///
/// Errors: `Disk` and `OutOfMemory`, after which no other file has changed.
pub(crate) fn make_log<S: Site>(alloc: Global, site: &mut S, number: u64) -> Result<Wal, OpenErr>
    requires number { IsNumber number }
    ensures new { IfOk result (λ wal. wal ≡ new_log number) }
    ensures made { S.shows → OnOk result (Creates (log_name number) (S.disk site.old) (S.disk site.new)) }
    ensures touches { TouchesOnly S.Site (log_name number ∷ []) site.old site.new }
    ensures empty { S.shows → OnOk result (HoldsBatches (S.disk site.new) (new_log number) [] 0) }
    ensures begins { S.shows → (names : List Name) (from : ℕ) → AreFilesBelow from names → (maps : Maps) (h : Holding) → HasTables maps number h (as_synced names (S.disk site.old)) → OnOk result (Begins maps 0 number h (as_synced names (S.disk site.new))) }
    ensures before { S.shows → LeavesOnly S.clock S.left_since site.old site.new (BeforeBarrier (log_name number) (S.may_be site.old) (S.told site.old)) }
    ensures rests { S.shows → (found : Found) (m : Map) → MayBeMade found (S.disk site.old) (Log number) → RestsAs found m (S.disk site.old) → RestsAs found m (S.disk site.new) }
    ensures cuts { S.shows → S.certain site.old → (found : Found) (m : Map) → MayBeMade found (S.disk site.old) (Log number) → RestsAs found m (S.disk site.old)
        → LeavesOnly S.clock S.left_since site.old site.new (LeavesStanding (IsLeftAs found m) (S.told site.old)) }
    ensures certain { S.shows → OnOk result (S.certain site.new) }
    ensures tells_nothing { TellsNothing S.Site site.old site.new }
    ensures fails { FailsByFolder S.Site result site.old site.new }
{
    names_one();
    stores_begin();
    barriers_let_disks_rest();
    let wal = Wal::create(alloc, site, number)?;
    Ok(wal)
}

/// Makes the manifest of this number, from 1 to 10^15 - 1, of one edit, which is in the bounds of the format, and syncs
/// it. With a log that is new and tables that are there, all that a store stands on is there then, but for CURRENT; also where some tables and
/// blob files only count as synced.
///
/// Errors: `Disk` and `OutOfMemory`, after which no other file has changed.
pub(crate) fn make_manifest<S: Site>(
    alloc: Global,
    site: &mut S,
    number: u64,
    edit: &Edit,
) -> Result<Manifest, OpenErr>
    requires number { IsNumber number }
    requires bounds { IsEdit edit.now }
    ensures new { IfOk result (λ made. made ≡ behind (new_manifest number) (record_bytes 0 edit.now)) }
    ensures holds { S.shows → IfOk result (λ made. HoldsEdits (S.disk site.new) made (edit.now ∷ []) 1) }
    ensures touches { TouchesOnly S.Site (manifest_name number ∷ []) site.old site.new }
    ensures ready { S.shows → (names : List Name) (from : ℕ) → AreFilesBelow from names → (maps : Maps) (log : ℕ) (h : Holding) → Begins maps 0 log h (as_synced names (S.disk site.old)) → restored_by (edit.now ∷ []) ≡ Some h.live
        → IfOk result (λ made. IsReady maps (begun made (edit.now ∷ []) log h 0) (as_synced names (S.disk site.new))) }
    ensures certain { S.shows → OnOk result (S.certain site.new) }
    ensures tells_nothing { TellsNothing S.Site site.old site.new }
    ensures fails { FailsByFolder S.Site result site.old site.new }
{
    names_one();
    stores_begin();
    let made = Manifest::create(alloc, site, number, edit)?;
    Ok(made)
}
