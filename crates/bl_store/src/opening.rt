//! Opening: a store is begun on what a folder holds.

ghost use Rattle.std.specs.Prelude.{◌≡◌, ℕ, ◌^◌, [], Err, IfOk, IfErr, OnOk, IsErrOf};
ghost use Rattle.bl_site.specs.Causes.{Rose};
ghost use Rattle.bl_site.specs.Disk.{folder_of, written_of};
ghost use Rattle.bl_site.specs.Quiet.{TellsNothing};
ghost use Rattle.bl_entry.specs.Revisions.{Map};
ghost use Rattle.bl_records.specs.Chance.{NoChanceMatch};
ghost use Rattle.bl_folder.specs.Settled.{IsSettled};
ghost use Rattle.bl_folder.specs.Stands.{IsSoundFolder, Stands};
ghost use Rattle.bl_open.specs.Beginning.{IsWithin};
ghost use Rattle.bl_open.specs.Found.{IsLeftStanding};
ghost use Rattle.bl_open.specs.Recovering.{CutsAtBarrier, IsFull, IsRefusal, TakesOver};
ghost use Rattle.bl_open.specs.declared.error.OpenErr.{OpenErr as OpenErrSpec};
ghost use Rattle.bl_store.specs.Causes.{IsOpening, of_opening};
ghost use Rattle.bl_store.specs.Held.{begun_with};
ghost use Rattle.bl_store.specs.Opening.{AnswersAsRefused, IsBegun, KeepsFound, opened_of};
ghost use Rattle.bl_store.specs.Standing.{IsThere, StandsAsSynced, StandsFor};

use crate::error::StoreErr;
use crate::store::Store;
use bl_entry::batches_join;
use bl_memtab::{MemTable, batches_are_held};
use bl_open::{Asked, Opened, recover};
use bl_out::Numbers;
use bl_site::Site;
use bl_wal::logs_are_read;
use std::alloc::Global;

impl Store {
    // A store on a folder that was opened: no entry is in memory yet.
    fn begin(alloc: Global, opened: Opened) -> Store
        requires { IsWithin opened }
        ensures begun { IsBegun result }
        ensures opened { opened_of result ≡ opened }
    {
        batches_are_held();
        Store {
            numbers: Numbers::from(opened.standing.next_file),
            last: opened.standing.last_sequence,
            memory: MemTable::start(alloc),
            waiting: None,
            broken: false,
            version: opened.version,
            standing: opened.standing,
            manifest: opened.manifest,
            wal: opened.wal,
        }
    }

    /// Opens a folder. A fresh one is made a store's, with the given words and else the defaults as its options; one with CURRENT is recovered:
    /// it is checked, its logs are replayed and flushed, and a new log and a new manifest take their place. No entry is in memory then.
    ///
    /// From a settled disk whose folder stands for a map, a cut meanwhile leaves what one before might have left, but that one file may be
    /// there, empty, or a folder that stands for this map, with its needed logs whole, and with a live part where one was found; at `Ok` the
    /// store stands on the disk for it, and no name call is in doubt. From any disk whose folder stands for a map, the store stands for it at
    /// `Ok` as if some tables and blob files that were there had been synced.
    ///
    /// Errors, the first three exactly where neither `Disk` nor `OutOfMemory` is answered: `Corrupt` with the first damaged name and place,
    /// and `Differ` at the first option whose word is not the stored value, each where that comes first; the folder reads as before.
    /// `Full(10^15)`, where all this passes, and the opening would take more numbers than are left from the first one on. `Disk`;
    /// `OutOfMemory`.
    pub fn open_site<S: Site>(alloc: Global, site: &mut S, asked: &Asked) -> Result<Store, StoreErr>
        ensures begun { IfOk result IsBegun }
        ensures takes { S.shows → IfOk result (λ store. TakesOver (folder_of (S.disk site.old)) asked.now (opened_of store)) }
        ensures there { S.shows → IfOk result (λ store. IsThere store (S.disk site.new)) }
        ensures begins { S.shows → (m : Map) → Stands (folder_of (S.disk site.old)) m → IfOk result (λ store. StandsAsSynced (begun_with m) store (S.disk site.new)) }
        ensures stands { S.shows → IsSettled (S.disk site.old) → (m : Map) → Stands (folder_of (S.disk site.old)) m → IfOk result (λ store. StandsFor [] (begun_with m) store (S.disk site.new)) }
        ensures cuts { S.shows → IsSettled (S.disk site.old) → (m : Map) → Stands (folder_of (S.disk site.old)) m → CutsAtBarrier S.Site (IsLeftStanding (folder_of (S.disk site.old)) m) site.old site.new }
        ensures settled { S.shows → IsSettled (S.disk site.old) → IsSoundFolder (folder_of (S.disk site.old)) → NoChanceMatch (folder_of (S.disk site.new)) (written_of (S.disk site.new)) → IsSettled (S.disk site.new) }
        ensures certain { S.shows → OnOk result (S.certain site.new) }
        ensures keeps { S.shows → KeepsFound result (S.disk site.old) (S.disk site.new) }
        ensures answers { S.shows → AnswersAsRefused (folder_of (S.disk site.old)) asked.now result }
        ensures same { S.shows → (e : OpenErrSpec) → IsRefusal e → result ≡ Err (of_opening e) → folder_of (S.disk site.new) ≡ folder_of (S.disk site.old) }
        ensures full { (n : ℕ) → result ≡ Err (StoreErr.Full n) → (n ≡ 10 ^ 15) × (S.shows → IsFull (folder_of (S.disk site.old)) asked.now) }
        ensures enough { S.shows → OnOk result (IsFull (folder_of (S.disk site.old)) asked.now → ⊥) }
        ensures tells_nothing { TellsNothing S.Site site.old site.new }
        ensures causes { IfErr result IsOpening }
        ensures disk { IsErrOf result StoreErr.Disk → Rose (S.disk_faults site.old) (S.disk_faults site.new) }
    {
        batches_join();
        logs_are_read();
        batches_are_held();
        match recover(alloc, site, asked) {
            Ok(opened) => Ok(Store::begin(alloc, opened)),
            Err(error) => Err(error.into()),
        }
    }
}
