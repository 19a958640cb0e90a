//! How an opening begins a store on what it has read.

ghost use Rattle.std.specs.Prelude.{◌≡◌, ℕ, ◌+◌, ◌^◌, ◌<◌, ◌≤◌, List, [], ◌∷◌, false, Err, IfOk, IfErr, Ok, OnOk, IsErrOf};
ghost use Rattle.bl_site.specs.Calls.{LeavesOnly};
ghost use Rattle.bl_site.specs.Causes.{Rose};
ghost use Rattle.bl_site.specs.Disk.{Name};
ghost use Rattle.bl_site.specs.Quiet.{TellsNothing};
ghost use Rattle.bl_entry.specs.Revisions.{Map};
ghost use Rattle.bl_edit.specs.Bounds.{IsEdit};
ghost use Rattle.bl_build.specs.Snapshots.{snapshot};
ghost use Rattle.bl_build.specs.Versions.{IsVersion, apply};
ghost use Rattle.bl_flush.specs.Jobs.{next_of};
ghost use Rattle.bl_wal.specs.Held.{HoldsBatches};
ghost use Rattle.bl_wal.specs.LogFile.{log_name, new_log};
ghost use Rattle.bl_names.specs.declared.name.FileName.TheVariants.{Current, Manifest as ManifestName, Temp};
ghost use Rattle.bl_names.specs.Names.{IsNumber, manifest_name, name_of};
ghost use Rattle.bl_out.specs.Quiet.{IsNoneOf};
ghost use Rattle.bl_folder.specs.Flushes.{IsBelow};
ghost use Rattle.bl_folder.specs.Holding.{Holding};
ghost use Rattle.bl_folder.specs.Settled.{IsSettled};
ghost use Rattle.bl_open.specs.Barrier.{IsOnEitherSide};
ghost use Rattle.bl_open.specs.Beginning.{AddsFlush, HoldsLoaded, IsBounded, IsInPlace, IsNumbered, IsOpened, StartsFrom, first_file, first_made};
ghost use Rattle.bl_open.specs.Causes.{FailsByFolder, IsWriting};
ghost use Rattle.bl_open.specs.Found.{Found, HasTables, IsLeftAs, IsSpareFor, RestsAs};
ghost use Rattle.bl_open.specs.Installations.{IsInstalled};
ghost use Rattle.bl_open.specs.Keeping.{KeepsBefore};
ghost use Rattle.bl_open.specs.Steady.{Maps, IsSteady};
ghost use Rattle.bl_open.specs.SteadyCalls.{begun};
ghost use Rattle.bl_open.specs.SteadyCuts.{LeavesStanding};
ghost use Rattle.bl_open.specs.Synced.{AreFilesBelow, as_synced};

use crate::error::OpenErr;
use crate::files::make_log;
use crate::flush::flush_found;
use crate::flushing::{drawn_files_let_disks_rest, flushed_tables_make_the_map};
use crate::install::install_store;
use crate::laws::barriers_let_disks_rest;
use bl_build::{Standing, Version, advance, version_is_in_order};
use bl_edit::{Edit, Options};
use bl_manifest::Manifest;
use bl_memtab::MemTable;
use bl_names::names_one;
use bl_out::Numbers;
use bl_site::Site;
use bl_wal::Wal;
use std::alloc::Global;

/// What an opening has read of a folder.
#[derive(Drop)]
pub struct Loaded {
    /// The version that the manifest restores; in a fresh folder the empty one.
    pub version: Version,
    /// The store's options.
    pub options: Options,
    /// The entries of the logs.
    pub memory: MemTable,
    /// The last sequence of the manifest and of the logs.
    pub last: u64,
    /// The first number for a new file.
    pub first: u64,
}

/// A folder that was opened.
#[derive(Drop)]
pub struct Opened {
    /// The tables and the blob files of the folder.
    pub version: Version,
    /// What the manifest says beside them.
    pub standing: Standing,
    /// The manifest that CURRENT names. It has one record, which is synced.
    pub manifest: Manifest,
    /// The log in use, which is empty.
    pub wal: Wal,
}

// The version behind the edit of a flush. Any refusal is answered as want of memory: new files fit every version that has lower numbers, which no
// clause can say here.
fn next_version(alloc: Global, version: Version, edit: &Edit) -> Result<Version, OpenErr>
    requires { IsEdit edit.now }
    ensures next { IfOk result (λ next. (apply version edit.now ≡ Ok next) × IsVersion next) }
    ensures memory { IfErr result (λ e. e ≡ OpenErr.OutOfMemory) }
{
    let Ok(next) = advance(alloc, version, edit) else {
        return Err(OpenErr::OutOfMemory);
    };
    version_is_in_order(&next);
    Ok(next)
}

// Makes the log, and installs the version: all that a store begins with on tables and blob files that are there.
fn start_store<S: Site>(
    alloc: Global,
    site: &mut S,
    manifest: u64,
    log: u64,
    version: &Version,
    standing: &Standing,
) -> Result<(Manifest, Wal), OpenErr>
    requires manifest { IsNumber manifest }
    requires log { IsNumber log }
    requires last { standing.now.last_sequence < 2 ^ 56 }
    requires next { standing.now.next_file ≤ 10 ^ 15 }
    ensures made { IfOk result (λ r. (r.0.number ≡ manifest) × (r.0.failed ≡ false) × (r.1 ≡ new_log log)) }
    ensures installed { S.shows → OnOk result (IsInstalled manifest (record { version = version.now; standing = standing.now }) (S.disk site.new)) }
    ensures empty { S.shows → OnOk result (HoldsBatches (S.disk site.new) (new_log log) [] 0) }
    ensures others { S.shows → (name : Name) → IsNoneOf (log_name log ∷ manifest_name manifest ∷ name_of (Temp manifest) ∷ name_of Current ∷ []) name → S.disk site.new name ≡ S.disk site.old name }
    ensures steady { S.shows → (names : List Name) (from : ℕ) → AreFilesBelow from names → (maps : Maps) (h : Holding) → HasTables maps log h (as_synced names (S.disk site.old)) → h.live ≡ record { version = version.now; standing = standing.now }
        → IfOk result (λ r. IsSteady maps (begun r.0 (snapshot version.now standing.now ∷ []) log h 0) (as_synced names (S.disk site.new))) }
    ensures sides { S.shows → (found : Found) (maps : Maps) (h : Holding) → RestsAs found (maps 0) (S.disk site.old) → IsSpareFor found (ManifestName manifest)
        → HasTables maps log h (S.disk site.old) → h.live ≡ record { version = version.now; standing = standing.now }
        → LeavesOnly S.clock S.left_since site.old site.new (IsOnEitherSide (log_name log) (S.may_be site.old) (IsLeftAs found (maps 0)) (S.told site.old)) }
    ensures cuts { S.shows → S.certain site.old → (found : Found) (maps : Maps) (h : Holding) → RestsAs found (maps 0) (S.disk site.old) → IsSpareFor found (ManifestName manifest)
        → HasTables maps log h (S.disk site.old) → h.live ≡ record { version = version.now; standing = standing.now }
        → LeavesOnly S.clock S.left_since site.old site.new (LeavesStanding (IsLeftAs found (maps 0)) (S.told site.old)) }
    ensures settled { S.shows → (found : Found) (maps : Maps) (h : Holding) → RestsAs found (maps 0) (S.disk site.old) → IsSpareFor found (ManifestName manifest)
        → HasTables maps log h (S.disk site.old) → h.live ≡ record { version = version.now; standing = standing.now } → IsSettled (S.disk site.new) }
    ensures certain { S.shows → OnOk result (S.certain site.new) }
    ensures tells_nothing { TellsNothing S.Site site.old site.new }
    ensures fails { FailsByFolder S.Site result site.old site.new }
{
    barriers_let_disks_rest();
    let wal = make_log(alloc, site, log)?;
    let made = install_store(alloc, site, manifest, version, standing)?;
    Ok((made, wal))
}

/// Begins a store on what was loaded: draws a number for the manifest and the next one for the log, flushes the memory, makes the log
/// and installs the version, so that no batch is left in a needed log. From a disk that rests as what was found a cut
/// leaves its map, needed logs whole, whatever is answered; before the first file is made it leaves what one before might have left; where no number is left for that file, the folder is not asked. At `Ok` the disk is
/// steady: from a disk that holds what was loaded once some tables and blob files of lower numbers count as synced, as soon as these count so.
///
/// Errors: `Disk`; `Full(10^15)`, only where the manifest, the log and the files of the flush take more numbers than are left; `OutOfMemory`.
pub(crate) fn begin<S: Site>(alloc: Global, site: &mut S, loaded: Loaded) -> Result<Opened, OpenErr>
    requires bounded { IsBounded loaded }
    requires below { S.shows → IsBelow loaded.first loaded.version }
    ensures numbered { IfOk result (IsNumbered loaded) }
    ensures unmade { 10 ^ 15 ≤ first_made loaded.memory loaded.first → site.new ≡ site.old }
    ensures keeps { S.shows → KeepsBefore loaded.first (S.disk site.old) (S.disk site.new) }
    ensures adds { S.shows → IfOk result (AddsFlush loaded.version loaded.memory) }
    ensures in_place { S.shows → IfOk result (λ o. IsInPlace o (S.disk site.new)) }
    ensures opened { S.shows → (names : List Name) → AreFilesBelow loaded.first names → (h : Holding) (m : Map) → HoldsLoaded h m loaded (as_synced names (S.disk site.old))
        → (maps : Maps) → maps 0 ≡ m → IfOk result (λ o. IsOpened maps o (as_synced names (S.disk site.new))) }
    ensures sides { S.shows → (found : Found) (h : Holding) (m : Map) → StartsFrom found h m loaded (S.disk site.old)
        → LeavesOnly S.clock S.left_since site.old site.new (IsOnEitherSide (first_file loaded.memory loaded.first) (S.may_be site.old) (IsLeftAs found m) (S.told site.old)) }
    ensures cuts { S.shows → S.certain site.old → (found : Found) (h : Holding) (m : Map) → StartsFrom found h m loaded (S.disk site.old)
        → LeavesOnly S.clock S.left_since site.old site.new (LeavesStanding (IsLeftAs found m) (S.told site.old)) }
    ensures settled { S.shows → (found : Found) (h : Holding) (m : Map) → StartsFrom found h m loaded (S.disk site.old) → IsSettled (S.disk site.new) }
    ensures certain { S.shows → OnOk result (S.certain site.new) }
    ensures full { (n : ℕ) → result ≡ Err (OpenErr.Full n) → (n ≡ 10 ^ 15) × (10 ^ 15 < next_of loaded.options [] (loaded.first + 2) loaded.memory) }
    ensures tells_nothing { TellsNothing S.Site site.old site.new }
    ensures causes { IfErr result IsWriting }
    ensures disk { IsErrOf result OpenErr.Disk → Rose (S.disk_faults site.old) (S.disk_faults site.new) }
{
    names_one();
    barriers_let_disks_rest();
    drawn_files_let_disks_rest();
    flushed_tables_make_the_map();
    let mut numbers = Numbers::from(loaded.first);
    let manifest = numbers.draw()?;
    let log = numbers.draw()?;
    let edit = flush_found(alloc, site, &mut numbers, &loaded.memory, &loaded.options)?;
    let version = next_version(alloc, loaded.version, &edit)?;
    let standing = Standing {
        log_number: log,
        next_file: numbers.next(),
        last_sequence: loaded.last,
        options: loaded.options,
    };
    let (manifest, wal) = start_store(alloc, site, manifest, log, &version, &standing)?;
    Ok(Opened {
        version,
        standing,
        manifest,
        wal,
    })
}
