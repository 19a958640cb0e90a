//! Opening a folder: a fresh one is made a store's, and one with CURRENT is recovered.

ghost use Rattle.std.specs.Prelude.{◌≡◌, ℕ, ◌^◌, All, None, Err, IfOk, IfErr, OnOk, IsErrOf, IsSome};
ghost use Rattle.std.specs.FinMap.{empty};
ghost use Rattle.bl_site.specs.Causes.{Rose};
ghost use Rattle.bl_site.specs.Disk.{Folder, folder_of, written_of};
ghost use Rattle.bl_site.specs.Quiet.{OnlyReads, TellsNothing};
ghost use Rattle.bl_names.specs.declared.name.FileName.TheVariants.{Current};
ghost use Rattle.bl_names.specs.Names.{HasNumber, IsNumber};
ghost use Rattle.bl_entry.specs.Revisions.{Map};
ghost use Rattle.bl_records.specs.Chance.{NoChanceMatch};
ghost use Rattle.bl_out.specs.Files.{file};
ghost use Rattle.bl_folder.specs.Live.{IsFresh};
ghost use Rattle.bl_folder.specs.Settled.{IsSettled};
ghost use Rattle.bl_folder.specs.Stands.{IsSoundFolder, Stands};
ghost use Rattle.bl_open.specs.Answers.{IsLoading};
ghost use Rattle.bl_open.specs.Beginning.{IsBounded, IsInPlace, IsOpened, IsOpenedAsSynced, IsWithin};
ghost use Rattle.bl_open.specs.Causes.{IsWriting};
ghost use Rattle.bl_open.specs.Damage.{NamesManifest};
ghost use Rattle.bl_open.specs.Found.{IsLeftAs, IsLeftStanding};
ghost use Rattle.bl_open.specs.Keeping.{KeepsFound};
ghost use Rattle.bl_open.specs.Listing.{AreListed, AreLogs};
ghost use Rattle.bl_open.specs.Recovering.{AnswersAsRefused, CutsAtBarrier, HasLoaded, IsFull, IsFullFresh, IsRefusal, TakesFresh, TakesOver};
ghost use Rattle.bl_open.specs.Replaying.{AreLogsFrom};
ghost use Rattle.bl_open.specs.Steady.{Maps};
ghost use Rattle.bl_open.specs.SteadyCuts.{IsLeftFor};

use crate::asked::Asked;
use crate::barrier::sync_found;
use crate::begin::{Loaded, Opened, begin};
use crate::checks::check_files;
use crate::damage::{damage_is_one, lacking_folders_are_not_live};
use crate::error::OpenErr;
use crate::laws::{barriers_let_disks_rest, stores_begin};
use crate::names::{
    check_fresh, check_manifest, first_number, has_file, list_files, log_numbers, read_current,
};
use crate::options::{check_options, new_options};
use crate::replay::replay_logs;
use bl_build::{Version, version_is_in_order};
use bl_edit::Options;
use bl_folder::{folders_stand_for_one_map, held_are_whole, memories_tell_what_was_inserted};
use bl_manifest::read_all;
use bl_memtab::{MemTable, batches_are_held};
use bl_names::FileName;
use bl_site::Site;
use std::alloc::Global;

// Begins a store in a fresh folder that has these files.
fn create_among<S: Site>(
    alloc: Global,
    site: &mut S,
    files: &[FileName],
    options: Options,
) -> Result<Opened, OpenErr>
    requires files { All HasNumber files.now }
    requires listed { S.shows → AreListed (folder_of (S.disk site.old)) files.now }
    requires fresh { S.shows → IsFresh (folder_of (S.disk site.old)) }
    ensures takes { S.shows → IfOk result (TakesFresh (folder_of (S.disk site.old)) options) }
    ensures within { IfOk result IsWithin }
    ensures in_place { S.shows → IfOk result (λ o. IsInPlace o (S.disk site.new)) }
    ensures keeps { S.shows → KeepsFound result (S.disk site.old) (S.disk site.new) }
    ensures opened { S.shows → (maps : Maps) → maps 0 ≡ empty → IfOk result (λ o. IsOpened maps o (S.disk site.new)) }
    ensures cuts { S.shows → IsSettled (S.disk site.old) → CutsAtBarrier S.Site (IsLeftAs None empty) site.old site.new }
    ensures settled { S.shows → IsSettled (S.disk site.old) → IsSettled (S.disk site.new) }
    ensures certain { S.shows → OnOk result (S.certain site.new) }
    ensures full { (n : ℕ) → result ≡ Err (OpenErr.Full n) → (n ≡ 10 ^ 15) × (S.shows → IsFullFresh (folder_of (S.disk site.old))) }
    ensures enough { S.shows → OnOk result (IsFullFresh (folder_of (S.disk site.old)) → ⊥) }
    ensures tells_nothing { TellsNothing S.Site site.old site.new }
    ensures causes { IfErr result IsWriting }
    ensures disk { IsErrOf result OpenErr.Disk → Rose (S.disk_faults site.old) (S.disk_faults site.new) }
{
    stores_begin();
    barriers_let_disks_rest();
    batches_are_held();
    memories_tell_what_was_inserted();
    let version = Version::empty(alloc);
    version_is_in_order(&version);
    let loaded = Loaded {
        version,
        options,
        memory: MemTable::start(alloc),
        last: 0,
        first: first_number(files, 1),
    };
    begin(alloc, site, loaded)
}

/// Makes a fresh folder a store's: an empty log, a manifest of one record with these options, and CURRENT, which names it. The folder
/// is listed once. At `Ok` the disk is steady, and no name call is in doubt. From a settled disk, a cut meanwhile leaves what one before might have left,
/// but that one file may be there, empty, or a folder that stands for the empty map; and a settled disk stays settled.
///
/// Errors: `Disk`; `Full(10^15)`, exactly where the manifest and the log would take more numbers than are left from the first number on and neither
/// `Disk` nor `OutOfMemory` is answered; `OutOfMemory`.
pub fn create<S: Site>(alloc: Global, site: &mut S, options: &Options) -> Result<Opened, OpenErr>
    requires { S.shows → IsFresh (folder_of (S.disk site.old)) }
    ensures takes { S.shows → IfOk result (TakesFresh (folder_of (S.disk site.old)) options.now) }
    ensures within { IfOk result IsWithin }
    ensures in_place { S.shows → IfOk result (λ o. IsInPlace o (S.disk site.new)) }
    ensures keeps { S.shows → KeepsFound result (S.disk site.old) (S.disk site.new) }
    ensures opened { S.shows → (maps : Maps) → maps 0 ≡ empty → IfOk result (λ o. IsOpened maps o (S.disk site.new)) }
    ensures cuts { S.shows → IsSettled (S.disk site.old) → CutsAtBarrier S.Site (IsLeftAs None empty) site.old site.new }
    ensures settled { S.shows → IsSettled (S.disk site.old) → IsSettled (S.disk site.new) }
    ensures certain { S.shows → OnOk result (S.certain site.new) }
    ensures full { (n : ℕ) → result ≡ Err (OpenErr.Full n) → (n ≡ 10 ^ 15) × (S.shows → IsFullFresh (folder_of (S.disk site.old))) }
    ensures enough { S.shows → OnOk result (IsFullFresh (folder_of (S.disk site.old)) → ⊥) }
    ensures tells_nothing { TellsNothing S.Site site.old site.new }
    ensures causes { IfErr result IsWriting }
    ensures disk { IsErrOf result OpenErr.Disk → Rose (S.disk_faults site.old) (S.disk_faults site.new) }
{
    let files = list_files(alloc, site)?;
    create_among(alloc, site, &files, *options)
}

// The numbers from this one on.
fn numbers_from(numbers: &[u64], from: u64) -> &[u64]
    ensures logs { (folder : Folder) → AreLogs folder numbers.now → AreLogsFrom folder from result.now }
    ensures numbers { All IsNumber numbers.now → All IsNumber result.now }
{
    &numbers[numbers.partition_point(|&number| number < from)..]
}

// Reads what the manifest of this number restores, checks it, and replays the logs from the log number on.
fn load<S: Site>(
    alloc: Global,
    site: &mut S,
    files: &[FileName],
    manifest: u64,
    logs: &[u64],
    asked: &Asked,
) -> Result<Loaded, OpenErr>
    requires manifest { IsNumber manifest }
    requires files { All HasNumber files.now }
    requires numbers { All IsNumber logs.now }
    requires listed { S.shows → AreListed (folder_of (S.disk site.old)) files.now }
    requires logs { S.shows → AreLogs (folder_of (S.disk site.old)) logs.now }
    requires named { S.shows → NamesManifest (folder_of (S.disk site.old)) manifest }
    ensures loaded { S.shows → IfOk result (HasLoaded (folder_of (S.disk site.old)) manifest asked.now) }
    ensures bounded { IfOk result IsBounded }
    ensures answers { S.shows → AnswersAsRefused (folder_of (S.disk site.old)) asked.now result }
    ensures quiet { OnlyReads S.Site site.old site.new }
    ensures causes { IfErr result IsLoading }
    ensures disk { IsErrOf result OpenErr.Disk → Rose (S.disk_faults site.old) (S.disk_faults site.new) }
{
    damage_is_one();
    folders_stand_for_one_map();
    lacking_folders_are_not_live();
    let restored = read_all(alloc, site, manifest)?;
    version_is_in_order(&restored.version);
    let standing = restored.standing;
    check_options(asked, &standing.options)?;
    check_files(alloc, site, &restored.version)?;
    let needed = numbers_from(logs, standing.log_number);
    let replayed = replay_logs(
        alloc,
        site,
        needed,
        standing.log_number,
        standing.last_sequence,
    )?;
    Ok(Loaded {
        version: restored.version,
        options: standing.options,
        memory: replayed.memory,
        last: replayed.last,
        first: first_number(files, standing.next_file),
    })
}

// Recovers a folder that has CURRENT and these files.
fn recover_live<S: Site>(
    alloc: Global,
    site: &mut S,
    files: &[FileName],
    asked: &Asked,
) -> Result<Opened, OpenErr>
    requires files { All HasNumber files.now }
    requires listed { S.shows → AreListed (folder_of (S.disk site.old)) files.now × IsSome (file (folder_of (S.disk site.old)) Current) }
    ensures takes { S.shows → IfOk result (TakesOver (folder_of (S.disk site.old)) asked.now) }
    ensures within { IfOk result IsWithin }
    ensures in_place { S.shows → IfOk result (λ o. IsInPlace o (S.disk site.new)) }
    ensures keeps { S.shows → KeepsFound result (S.disk site.old) (S.disk site.new) }
    ensures opened { S.shows → IsSettled (S.disk site.old) → (m : Map) → Stands (folder_of (S.disk site.old)) m → (maps : Maps) → maps 0 ≡ m → IfOk result (λ o. IsOpened maps o (S.disk site.new)) }
    ensures begins { S.shows → (m : Map) → Stands (folder_of (S.disk site.old)) m → (maps : Maps) → maps 0 ≡ m → IfOk result (λ o. IsOpenedAsSynced maps o (S.disk site.new)) }
    ensures cuts { S.shows → IsSettled (S.disk site.old) → (m : Map) → Stands (folder_of (S.disk site.old)) m → CutsAtBarrier S.Site (IsLeftFor m) site.old site.new }
    ensures settled { S.shows → IsSettled (S.disk site.old) → IsSoundFolder (folder_of (S.disk site.old)) → NoChanceMatch (folder_of (S.disk site.new)) (written_of (S.disk site.new)) → IsSettled (S.disk site.new) }
    ensures certain { S.shows → OnOk result (S.certain site.new) }
    ensures answers { S.shows → AnswersAsRefused (folder_of (S.disk site.old)) asked.now result }
    ensures same { S.shows → IfErr result (λ e. IsRefusal e → folder_of (S.disk site.new) ≡ folder_of (S.disk site.old)) }
    ensures full { (n : ℕ) → result ≡ Err (OpenErr.Full n) → (n ≡ 10 ^ 15) × (S.shows → IsFull (folder_of (S.disk site.old)) asked.now) }
    ensures enough { S.shows → OnOk result (IsFull (folder_of (S.disk site.old)) asked.now → ⊥) }
    ensures tells_nothing { TellsNothing S.Site site.old site.new }
    ensures disk { IsErrOf result OpenErr.Disk → Rose (S.disk_faults site.old) (S.disk_faults site.new) }
{
    damage_is_one();
    folders_stand_for_one_map();
    held_are_whole();
    lacking_folders_are_not_live();
    memories_tell_what_was_inserted();
    let manifest = read_current(alloc, site)?;
    check_manifest(alloc, files, manifest)?;
    let logs = log_numbers(alloc, files)?;
    sync_found(alloc, site, manifest, &logs)?;
    let loaded = load(alloc, site, files, manifest, &logs, asked)?;
    begin(alloc, site, loaded)
}

/// Opens a folder. A fresh one is made a store's, with the given words and else the defaults as its options. One with CURRENT is recovered: its manifest and
/// logs are synced, the manifest is read, the words are compared with the options, the files of the version are checked by their lengths and ends,
/// and the needed logs are replayed; then the entries that they held are flushed, and a new log and a new manifest take their place. The folder is listed
/// once, and no file is read whole but the manifest and the logs.
///
/// From a settled disk whose folder stands for a map, a cut meanwhile leaves what one before might have left, but that one file may be there, empty,
/// or a folder that stands for this map, with its needed logs whole, and with a live part where one was found; at `Ok` the disk is steady for it. From any disk whose folder stands for a map, it is so at `Ok` as if some tables
/// and blob files that were there before had been synced. At `Ok` no name call is in doubt. Nothing is told.
///
/// Errors, the first three exactly where neither `Disk` nor `OutOfMemory` is answered: `Corrupt` with the first damaged name and place, and `Differ` at
/// the first option whose word is not the stored value, each where that comes first: CURRENT and its manifest, then the words, then tables, blob files
/// and logs; the folder reads as before. `Full(10^15)`, where all this passes, and the manifest, the log and the files of the flush would take more
/// numbers than are left from the first number on. `Disk`; `OutOfMemory`.
pub fn recover<S: Site>(alloc: Global, site: &mut S, asked: &Asked) -> Result<Opened, OpenErr>
    ensures takes { S.shows → IfOk result (TakesOver (folder_of (S.disk site.old)) asked.now) }
    ensures within { IfOk result IsWithin }
    ensures in_place { S.shows → IfOk result (λ o. IsInPlace o (S.disk site.new)) }
    ensures keeps { S.shows → KeepsFound result (S.disk site.old) (S.disk site.new) }
    ensures opened { S.shows → IsSettled (S.disk site.old) → (m : Map) → Stands (folder_of (S.disk site.old)) m → (maps : Maps) → maps 0 ≡ m → IfOk result (λ o. IsOpened maps o (S.disk site.new)) }
    ensures begins { S.shows → (m : Map) → Stands (folder_of (S.disk site.old)) m → (maps : Maps) → maps 0 ≡ m → IfOk result (λ o. IsOpenedAsSynced maps o (S.disk site.new)) }
    ensures cuts { S.shows → IsSettled (S.disk site.old) → (m : Map) → Stands (folder_of (S.disk site.old)) m → CutsAtBarrier S.Site (IsLeftStanding (folder_of (S.disk site.old)) m) site.old site.new }
    ensures settled { S.shows → IsSettled (S.disk site.old) → IsSoundFolder (folder_of (S.disk site.old)) → NoChanceMatch (folder_of (S.disk site.new)) (written_of (S.disk site.new)) → IsSettled (S.disk site.new) }
    ensures certain { S.shows → OnOk result (S.certain site.new) }
    ensures answers { S.shows → AnswersAsRefused (folder_of (S.disk site.old)) asked.now result }
    ensures same { S.shows → IfErr result (λ e. IsRefusal e → folder_of (S.disk site.new) ≡ folder_of (S.disk site.old)) }
    ensures full { (n : ℕ) → result ≡ Err (OpenErr.Full n) → (n ≡ 10 ^ 15) × (S.shows → IsFull (folder_of (S.disk site.old)) asked.now) }
    ensures enough { S.shows → OnOk result (IsFull (folder_of (S.disk site.old)) asked.now → ⊥) }
    ensures tells_nothing { TellsNothing S.Site site.old site.new }
    ensures disk { IsErrOf result OpenErr.Disk → Rose (S.disk_faults site.old) (S.disk_faults site.new) }
{
    damage_is_one();
    folders_stand_for_one_map();
    lacking_folders_are_not_live();
    let files = list_files(alloc, site)?;
    if has_file(&files, FileName::Current) {
        return recover_live(alloc, site, &files, asked);
    }
    check_fresh(alloc, site, &files)?;
    create_among(alloc, site, &files, new_options(asked))
}
