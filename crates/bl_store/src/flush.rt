//! Flushing: a waiting memory is written into a table and its blob files, and these are installed.

ghost use Rattle.std.specs.Prelude.{◌≡◌, ◌↔◌, ◌⊎◌, ℕ, ◌+◌, ◌<◌, ◌≤◌, ◌^◌, List, [], false, true, Some, None, Ok, Err, IfOk, IfErr, IsSome, OnOk, OnErr, IsErrOf};
ghost use Rattle.bl_site.specs.Causes.{Rose};
ghost use Rattle.bl_site.specs.Calls.{LeavesOnly};
ghost use Rattle.bl_site.specs.Disk.{Name, folder_of, written_of};
ghost use Rattle.bl_site.specs.Quiet.{TellsNothing};
ghost use Rattle.bl_names.specs.Names.{IsNumber, manifest_name};
ghost use Rattle.bl_edit.specs.Bounds.{IsEdit};
ghost use Rattle.bl_edit.specs.Options.{AreInRange};
ghost use Rattle.bl_build.specs.Versions.{apply};
ghost use Rattle.bl_records.specs.Chance.{NoChanceMatch};
ghost use Rattle.bl_flush.specs.Jobs.{next_of};
ghost use Rattle.bl_out.specs.Quiet.{TouchesOnly};
ghost use Rattle.bl_folder.specs.Holding.{Holding};
ghost use Rattle.bl_folder.specs.Settled.{IsSettled};
ghost use Rattle.bl_open.specs.Flushing.{drawn};
ghost use Rattle.bl_open.specs.Steady.{Maps, Steady, IsSteady, accepted, durable};
ghost use Rattle.bl_open.specs.SteadyCalls.{Installs, KeepsAllBut, installed};
ghost use Rattle.bl_open.specs.SteadyCuts.{LeavesMap};
ghost use Rattle.bl_store.specs.Calls.{Breaks, CutsOfCall, HasEmptied, HasFlushedInUse, LeavesStore, RefusesFlush, WritesOwn, next_flushed};
ghost use Rattle.bl_store.specs.Causes.{IsMaking, IsSyncing};
ghost use Rattle.bl_store.specs.Flushing.{HasFlushed, HasMade};
ghost use Rattle.bl_store.specs.Held.{Held, all_durable};
ghost use Rattle.bl_store.specs.Reading.{StillGives};
ghost use Rattle.bl_store.specs.Standing.{IsThere, StandsFor};
ghost use Rattle.bl_store.specs.Stored.{IsWaiting};
ghost use Rattle.bl_open.specs.Synced.{AreFilesBelow, as_synced};

use crate::error::StoreErr;
use crate::read::stores_give_their_map;
use crate::store::{Store, Waiting};
use bl_build::{Version, apply};
use bl_code::blob_indexes_are_unique;
use bl_edit::{Edit, Options};
use bl_flush::{flush_all, flushes_make_what_is_kept};
use bl_folder::{
    flushed_folders_stand, flushes_keep_maps, folders_stand_for_one_map, held_are_whole,
    other_files_do_not_matter, quiet_cuts_keep_needed,
};
use bl_index::index_is_read_again;
use bl_manifest::{Manifest, synced_manifests_are_left};
use bl_names::names_one;
use bl_open::{
    drawn_files_let_disks_rest, installations_keep_disks_steady, quiet_calls_keep_disks_steady,
    steady_disks_are_left, steady_disks_stand, tables_are_installed,
};
use bl_out::Numbers;
use bl_site::Site;
use std::alloc::Global;

// Options are in their ranges.
fn show_range(options: &Options)
    ensures { AreInRange options.now }
{
    let _threshold = options.min_blob_size;
}

// Writes the files of a flush of the waiting memory. Answers the edit that installs them. Where no number is drawn the folder is not
// asked.
fn write_files<S: Site>(
    alloc: Global,
    site: &mut S,
    numbers: &mut Numbers,
    waiting: &Waiting,
    options: &Options,
) -> Result<Edit, StoreErr>
    requires { IsWaiting waiting.now }
    ensures made { S.shows → IfOk result (HasMade options.now numbers.old numbers.new waiting.now (S.disk site.new)) }
    ensures bounds { IfOk result IsEdit }
    ensures numbers { OnOk result (numbers.new ≡ next_of options.now [] numbers.old waiting.now.memory) }
    ensures upwards { numbers.old ≤ numbers.new }
    ensures most { numbers.new ≤ 10 ^ 15 }
    ensures full { (n : ℕ) → result ≡ Err (StoreErr.Full n) → (n ≡ 10 ^ 15) × (10 ^ 15 < next_of options.now [] numbers.old waiting.now.memory) }
    ensures idle { numbers.new ≡ numbers.old → site.new ≡ site.old }
    ensures asked { numbers.old < numbers.new → OnErr result (IsErrOf result StoreErr.OutOfMemory → Rose (S.changes site.old) (S.changes site.new)) × OnOk result (Rose (S.changes site.old) (S.changes site.new)) }
    ensures certain { S.shows → S.certain site.old → OnOk result (S.certain site.new) }
    ensures touches { TouchesOnly S.Site (drawn numbers.old numbers.new) site.old site.new }
    ensures tells_nothing { TellsNothing S.Site site.old site.new }
    ensures causes { IfErr result IsMaking }
    ensures disk { IsErrOf result StoreErr.Disk → Rose (S.disk_faults site.old) (S.disk_faults site.new) }
{
    flushes_make_what_is_kept();
    show_range(options);
    let made = flush_all(alloc, site, numbers, &waiting.memory, options, &[]);
    let next = numbers.next();
    let mut edit = made?;
    edit.log_number = Some(waiting.log);
    edit.next_file = Some(next);
    edit.last_sequence = Some(waiting.last);
    Ok(edit)
}

// The version behind the edit of a flush. Any refusal is answered as want of memory: new files fit every version that has lower numbers.
fn next_version(alloc: Global, version: &Version, edit: &Edit) -> Result<Version, StoreErr>
    requires { IsEdit edit.now }
    ensures next { IfOk result (λ next. apply version.now edit.now ≡ Ok next) }
    ensures memory { IfErr result (λ e. e ≡ StoreErr.OutOfMemory) }
{
    let Ok(next) = apply(alloc, version, edit) else {
        return Err(StoreErr::OutOfMemory);
    };
    Ok(next)
}

// Appends the edit to the manifest, which then restores the version that it leads to.
fn install<S: Site>(
    alloc: Global,
    site: &mut S,
    manifest: &mut Manifest,
    version: &Version,
    edit: &Edit,
) -> Result<Version, StoreErr>
    requires usable { manifest.old.failed ≡ false }
    requires bounds { IsEdit edit.now }
    requires there { S.shows → IsSome (S.disk site.old (manifest_name manifest.old.number)) }
    ensures next { IfOk result (λ next. apply version.now edit.now ≡ Ok next) }
    ensures steady { S.shows → (names : List Name) (from : ℕ) (maps : Maps) (s : Steady) (h : Holding) (before below : ℕ) → AreFilesBelow from names → IsNumber manifest.old.number → IsSteady maps s (as_synced names (S.disk site.old)) → s.manifest ≡ manifest.old
        → Installs maps s edit.now h before below (as_synced names (S.disk site.old)) → OnOk result (IsSteady maps (installed s edit.now h before below manifest.new) (as_synced names (S.disk site.new))) }
    ensures cuts { S.shows → S.certain site.old → (maps : Maps) (s : Steady) (h : Holding) (before below : ℕ) → IsSteady maps s (S.disk site.old) → s.manifest ≡ manifest.old → Installs maps s edit.now h before below (S.disk site.old)
        → LeavesOnly S.clock S.left_since site.old site.new (LeavesMap maps (durable s) (accepted s) (S.told site.old)) }
    ensures settled { S.shows → (maps : Maps) (s : Steady) (h : Holding) (before below : ℕ) → IsSteady maps s (S.disk site.old) → s.manifest ≡ manifest.old → Installs maps s edit.now h before below (S.disk site.old)
        → NoChanceMatch (folder_of (S.disk site.new)) (written_of (S.disk site.new)) → IsSettled (S.disk site.new) }
    ensures keeps { S.shows → KeepsAllBut (manifest_name manifest.old.number) (S.disk site.old) (S.disk site.new) }
    ensures there { S.shows → IsSome (S.disk site.new (manifest_name manifest.old.number)) }
    ensures number { manifest.new.number ≡ manifest.old.number }
    ensures usable { OnOk result (manifest.new.failed ≡ false) }
    ensures asked { OnErr result (((manifest.new.failed ≡ true) × Rose (S.changes site.old) (S.changes site.new)) ⊎ ((result ≡ Err StoreErr.OutOfMemory) × (manifest.new ≡ manifest.old) × (site.new ≡ site.old))) }
    ensures asked_ok { OnOk result (Rose (S.changes site.old) (S.changes site.new)) }
    ensures certain { S.shows → S.certain site.old → S.certain site.new }
    ensures tells_nothing { TellsNothing S.Site site.old site.new }
    ensures causes { IfErr result IsSyncing }
    ensures disk { IsErrOf result StoreErr.Disk → Rose (S.disk_faults site.old) (S.disk_faults site.new) }
{
    names_one();
    steady_disks_stand();
    steady_disks_are_left();
    installations_keep_disks_steady();
    let next = next_version(alloc, version, edit)?;
    manifest.append(alloc, site, edit)?;
    Ok(next)
}

// Whether a failure of a writing call breaks the store: want of memory only once the folder was asked.
fn breaks(error: &StoreErr, asked: bool) -> bool
    ensures disk { error.now ≡ StoreErr.Disk → result ≡ true }
    ensures memory { error.now ≡ StoreErr.OutOfMemory → result ≡ asked }
    ensures full { (n : ℕ) → error.now ≡ StoreErr.Full n → result ≡ false }
{
    match error {
        StoreErr::Disk => true,
        StoreErr::OutOfMemory => asked,
        _ => false,
    }
}

impl Store {
    // Flushes the waiting memory, if there is one: its files are written, and the edit that adds them, with the number of the log that
    // was made at the switch, is appended to the manifest and synced.
    pub(crate) fn flush_waiting<S: Site>(
        &mut self,
        alloc: Global,
        site: &mut S,
    ) -> Result<(), StoreErr>
        requires usable { self.old.broken ≡ false }
        requires there { S.shows → IsThere self.old (S.disk site.old) }
        ensures flushed { OnOk result (HasFlushed self.old self.new) }
        ensures full { (n : ℕ) → result ≡ Err (StoreErr.Full n) → (n ≡ 10 ^ 15) × (10 ^ 15 < next_flushed self.old) }
        ensures upwards { self.old.next ≤ self.new.next }
        ensures breaks { Breaks S.Site result self.old self.new site.old site.new }
        ensures asked { IsErrOf result StoreErr.OutOfMemory → Rose (S.changes site.old) (S.changes site.new) ⊎ (S.changes site.new ≡ S.changes site.old) }
        ensures asked_ok { OnOk result (Rose (S.changes site.old) (S.changes site.new) ⊎ (S.changes site.new ≡ S.changes site.old)) }
        ensures stands { S.shows → (names : List Name) (held : Held) → StandsFor names held self.old (S.disk site.old) → LeavesStore names held held result self.new (S.disk site.new) }
        ensures gives { S.shows → (names : List Name) (held : Held) → StandsFor names held self.old (S.disk site.old) → StillGives held result self.new (S.disk site.new) }
        ensures cuts { S.shows → S.certain site.old → (held : Held) → StandsFor [] held self.old (S.disk site.old) → CutsOfCall S.Site held held site.old site.new }
        ensures own { WritesOwn S.Site result self.old self.new site.old site.new }
        ensures causes { IfErr result IsMaking }
        ensures disk { IsErrOf result StoreErr.Disk → Rose (S.disk_faults site.old) (S.disk_faults site.new) }
    {
        names_one();
        index_is_read_again();
        blob_indexes_are_unique();
        held_are_whole();
        flushes_keep_maps();
        flushed_folders_stand();
        folders_stand_for_one_map();
        other_files_do_not_matter();
        quiet_cuts_keep_needed();
        stores_give_their_map();
        synced_manifests_are_left();
        steady_disks_stand();
        steady_disks_are_left();
        quiet_calls_keep_disks_steady();
        installations_keep_disks_steady();
        tables_are_installed();
        drawn_files_let_disks_rest();
        let Some(waiting) = &self.waiting else {
            return Ok(());
        };
        let before = self.numbers.next();
        let options = &self.standing.options;
        let edit = match write_files(alloc, site, &mut self.numbers, waiting, options) {
            Ok(edit) => edit,
            Err(error) => {
                self.broken = breaks(&error, self.numbers.next() != before);
                return Err(error);
            }
        };
        match install(alloc, site, &mut self.manifest, &self.version, &edit) {
            Ok(version) => {
                self.version = version;
                self.standing.log_number = waiting.log;
                self.standing.next_file = self.numbers.next();
                self.standing.last_sequence = waiting.last;
                self.waiting = None;
                Ok(())
            }
            Err(error) => {
                self.broken = self.manifest.failed() || self.numbers.next() != before;
                Err(error)
            }
        }
    }

    // Flushes the waiting memory in a call that has asked the folder: want of memory breaks the store.
    fn flush_asked<S: Site>(&mut self, alloc: Global, site: &mut S) -> Result<(), StoreErr>
        requires usable { self.old.broken ≡ false }
        requires there { S.shows → IsThere self.old (S.disk site.old) }
        ensures flushed { OnOk result (HasFlushed self.old self.new) }
        ensures full { (n : ℕ) → result ≡ Err (StoreErr.Full n) → (n ≡ 10 ^ 15) × (10 ^ 15 < next_flushed self.old) × (self.new.broken ≡ false) }
        ensures upwards { self.old.next ≤ self.new.next }
        ensures usable { OnOk result (self.new.broken ≡ false) }
        ensures disk_breaks { IsErrOf result StoreErr.Disk → self.new.broken ≡ true }
        ensures always { IsErrOf result StoreErr.OutOfMemory → (self.new.broken ≡ true) × (Rose (S.changes site.old) (S.changes site.new) ⊎ (S.changes site.new ≡ S.changes site.old)) }
        ensures stands { S.shows → (names : List Name) (held : Held) → StandsFor names held self.old (S.disk site.old) → LeavesStore names held held result self.new (S.disk site.new) }
        ensures gives { S.shows → (names : List Name) (held : Held) → StandsFor names held self.old (S.disk site.old) → StillGives held result self.new (S.disk site.new) }
        ensures cuts { S.shows → S.certain site.old → (held : Held) → StandsFor [] held self.old (S.disk site.old) → CutsOfCall S.Site held held site.old site.new }
        ensures own { WritesOwn S.Site result self.old self.new site.old site.new }
        ensures causes { IfErr result IsMaking }
        ensures disk { IsErrOf result StoreErr.Disk → Rose (S.disk_faults site.old) (S.disk_faults site.new) }
    {
        match self.flush_waiting(alloc, site) {
            Ok(()) => Ok(()),
            Err(error) => {
                self.broken = breaks(&error, true);
                Err(error)
            }
        }
    }

    // Switches the memory in use, and flushes it. No memory waits before.
    #[tactic(auto, using(crate::proofs::NumberLemmas::flush_up))]
    fn flush_in_use<S: Site>(&mut self, alloc: Global, site: &mut S) -> Result<(), StoreErr>
        requires usable { self.old.broken ≡ false }
        requires none { self.old.waiting ≡ None }
        requires there { S.shows → IsThere self.old (S.disk site.old) }
        ensures flushed { OnOk result (HasFlushedInUse self.old self.new) }
        ensures full { (n : ℕ) → result ≡ Err (StoreErr.Full n) → (n ≡ 10 ^ 15) × (10 ^ 15 < next_of self.old.standing.options [] (self.old.next + 1) self.old.memory) }
        ensures upwards { self.old.next ≤ self.new.next }
        ensures breaks { Breaks S.Site result self.old self.new site.old site.new }
        ensures always { IsErrOf result StoreErr.OutOfMemory → self.new.broken ≡ true }
        ensures stands { S.shows → (names : List Name) (held : Held) → StandsFor names held self.old (S.disk site.old) → LeavesStore names held (all_durable held) result self.new (S.disk site.new) }
        ensures gives { S.shows → (names : List Name) (held : Held) → StandsFor names held self.old (S.disk site.old) → StillGives held result self.new (S.disk site.new) }
        ensures cuts { S.shows → S.certain site.old → (held : Held) → StandsFor [] held self.old (S.disk site.old) → CutsOfCall S.Site held (all_durable held) site.old site.new }
        ensures own { WritesOwn S.Site result self.old self.new site.old site.new }
        ensures causes { IfErr result IsMaking }
        ensures disk { IsErrOf result StoreErr.Disk → Rose (S.disk_faults site.old) (S.disk_faults site.new) }
    {
        self.switch(alloc, site)?;
        self.flush_asked(alloc, site)
    }

    /// Flushes what is in memory into tables and blob files: a waiting memory first, and then, once it is switched, the one in use where
    /// it has an entry. Behind it no entry is in memory, and all writes are durable.
    ///
    /// Errors: `Broken` exactly where the store is broken; else `Full` with 10^15 exactly where more files are to be made than numbers
    /// are left and no other failure comes before; `Disk`; `OutOfMemory`. After `Disk`, and after `OutOfMemory` once the folder was asked, the store is broken. Else it holds what it
    /// held; a memory may have been flushed or switched by then. Either way readers are given the map that it held.
    #[tactic(auto, using(crate::proofs::NumberLemmas::switch_within))]
    pub fn flush<S: Site>(&mut self, alloc: Global, site: &mut S) -> Result<(), StoreErr>
        requires there { S.shows → IsThere self.old (S.disk site.old) }
        ensures broken { (result ≡ Err StoreErr.Broken) ↔ (self.old.broken ≡ true) }
        ensures refuses { RefusesFlush self.old result }
        ensures emptied { OnOk result (HasEmptied self.old self.new) }
        ensures breaks { self.old.broken ≡ false → Breaks S.Site result self.old self.new site.old site.new }
        ensures stays { self.old.broken ≡ true → (self.new ≡ self.old) × (site.new ≡ site.old) }
        ensures stands { S.shows → self.old.broken ≡ false → (names : List Name) (held : Held) → StandsFor names held self.old (S.disk site.old)
            → LeavesStore names held (all_durable held) result self.new (S.disk site.new) }
        ensures gives { S.shows → self.old.broken ≡ false → (names : List Name) (held : Held) → StandsFor names held self.old (S.disk site.old) → StillGives held result self.new (S.disk site.new) }
        ensures cuts { S.shows → S.certain site.old → self.old.broken ≡ false → (held : Held) → StandsFor [] held self.old (S.disk site.old) → CutsOfCall S.Site held (all_durable held) site.old site.new }
        ensures own { WritesOwn S.Site result self.old self.new site.old site.new }
        ensures disk { IsErrOf result StoreErr.Disk → Rose (S.disk_faults site.old) (S.disk_faults site.new) }
    {
        if self.broken {
            return Err(StoreErr::Broken);
        }
        self.flush_waiting(alloc, site)?;
        if self.memory.count() == 0 {
            return self.sync_log(site);
        }
        let flushed = self.flush_in_use(alloc, site);
        self.show_next();
        flushed
    }
}
