//! The store.

ghost use Rattle.std.specs.Prelude.{◌≡◌, ◌↔◌, ℕ, ◌+◌, ◌-◌, ◌<◌, ◌≤◌, ◌^◌, ◌⊎◌, List, [], ◌∷◌, ◌++◌, ◌&&◌, length, filter, IfOk, IfErr, OnOk, OnErr, IsErrOf, IsTrue, IsSome, Err, true, false};
ghost use Rattle.std.specs.Option.{option_copied, option_map};
ghost use Rattle.std.specs.FinMap.{get};
ghost use Rattle.bl_site.specs.Disk.{Name, folder_of};
ghost use Rattle.bl_code.specs.Order.{bytes_le, bytes_lt};
ghost use Rattle.bl_site.specs.Calls.{Appends, AppendsAny, Frays, KeepsDisk, LeavesOnly, Syncs};
ghost use Rattle.bl_site.specs.Quiet.{TellsNothing};
ghost use Rattle.bl_site.specs.Causes.{Rose, one_more};
ghost use Rattle.bl_wal.specs.LogFile.{LogFile, log_name};
ghost use Rattle.bl_wal.specs.Held.{Batches};
ghost use Rattle.bl_logstore.specs.Damage.{IsDamaged};
ghost use Rattle.bl_logstore.specs.Folders.{Stands};
ghost use Rattle.bl_logstore.specs.Pairs.{pairs_between};
ghost use Rattle.bl_logstore.specs.Stored.{map_in, StandsOn, next_batch, next_record, wrote, Carries, Opens, MayAppend, MayHold, KeepsAllBut, KeepsOthers, HasNextLog, IsOpened};
ghost use Rattle.bl_logstore.specs.Cuts.{BeforeBarrier, FindsOpened, LeavesFirst};
ghost use Rattle.bl_logstore.specs.Causes.{IsOpening, IsWriting, IsEnding, IsUntouched};

use crate::error::StoreErr;
use crate::laws::{batches_are_once, cuts_stand, stores_stand};
use crate::memory::put_operations;
use crate::open::{next_number, read_logs};
use bl_code::Octets;
use bl_entry::Batch;
use bl_names::names_one;
use bl_site::Site;
use bl_wal::{Wal, records_are_batches};
use std::alloc::Global;
use std::collections::BTreeMap;
use std::collections::btree_map::Range;
use std::marker::Model;

// The greatest sequence.
const MAX_SEQUENCE: u64 = (1 << 56) - 1;

/// An ordered map from keys to values, kept in memory, whose writes stand in a log. A contract sees the log in use, the last
/// sequence, the map, and whether a writing call has failed.
#[derive(Drop)]
pub struct Store {
    wal: Wal,
    map: BTreeMap<Octets, Octets>,
    last: u64,
    broken: bool,
}

// The entries from one key to before another: none where the one stands behind the other.
fn between<'m>(
    map: &'m BTreeMap<Octets, Octets>,
    from: &'m Octets,
    to: &'m Octets,
) -> Range<'m, Octets, Octets>
    ensures { result ≡ filter (λ p. bytes_le from.now p.0 && bytes_lt p.0 to.now) map.now.entries }
{
    if to < from {
        map.range(from..from)
    } else {
        map.range(from..to)
    }
}

impl Model for Store {
    ghost use Rattle.std.specs.Prelude.{◌≡◌, false};
    ghost use Rattle.bl_logstore.specs.Stored.{Stored, map_in, stored_code};

    ghost Value = { Stored };

    ghost coded = { stored_code };

    ghost view = { λ s. record { log = s.wal; last = s.last; now = map_in s.map.entries; broken = s.broken } };

    // A store that is not broken can write to its log.
    ghost invariant = { λ s. s.broken ≡ false → s.wal.failed ≡ false };
}

impl Store {
    /// Opens the folder: syncs its logs in order of number, replays them, and makes the next log.
    ///
    /// Errors: `Corrupt` exactly where the folder holds a file of a store that is no log, then of the first such name and at
    /// place 0, or else where a log holds a record that is no batch or does not begin behind the last sequence, then of the
    /// first such log and at the place behind the record; `Full` with 10^15 exactly where the next log would have this
    /// number; `Disk`, after which the next log may be there or not; `OutOfMemory`.
    pub fn open_site<S: Site>(alloc: Global, site: &mut S) -> Result<Store, StoreErr>
        ensures opened { S.shows → IfOk result (λ store. Opens (folder_of (S.disk site.old)) store (S.disk site.new)) }
        ensures certain { S.shows → OnOk result (S.certain site.new) }
        ensures usable { IfOk result (λ store. store.broken ≡ false) }
        ensures there { S.shows → IfOk result (λ store. IsSome (S.disk site.new (log_name store.log.number))) }
        ensures others { S.shows → KeepsOthers (S.disk site.old) (S.disk site.new) }
        ensures corrupt { S.shows → (name : Name) (place : ℕ) → result ≡ Err (StoreErr.Corrupt name place) → IsDamaged (folder_of (S.disk site.old)) name place }
        ensures full { S.shows → (number : ℕ) → result ≡ Err (StoreErr.Full number) → (number ≡ 10 ^ 15) × IsSome (folder_of (S.disk site.old) (log_name (10 ^ 15 - 1)))
            × ((batches : Batches) × ((last : ℕ) × Stands (folder_of (S.disk site.old)) batches last)) }
        ensures same { S.shows → IfErr result (λ e. IsUntouched e → folder_of (S.disk site.new) ≡ folder_of (S.disk site.old)) }
        ensures stays_certain { S.shows → IfErr result (λ e. IsUntouched e → S.certain site.old → S.certain site.new) }

        // Wherever the next log is there, the disk is as after an opening that ended well.
        ensures made { S.shows → HasNextLog (folder_of (S.disk site.old)) (S.disk site.new) → IsOpened (folder_of (S.disk site.old)) (S.disk site.new) }

        // Until it has answered, a cut leaves what a cut before it might have left, perhaps with the next log besides, which is empty.
        ensures before { S.shows → LeavesOnly S.clock S.left_since site.old site.new (BeforeBarrier (folder_of (S.disk site.old)) (S.may_be site.old) (S.told site.old)) }

        // The barrier is over once that log is made: a cut that finds it finds the disk as after an opening that ended well.
        ensures behind { S.shows → S.certain site.old → LeavesOnly S.clock S.left_since site.old site.new
            (λ c. HasNextLog (folder_of (S.disk site.old)) c.written → FindsOpened (folder_of (S.disk site.old)) (S.told site.old) c) }

        // Of a store that stands on the disk, it leaves no synced batch out.
        ensures cuts { S.shows → S.certain site.old → (log : LogFile) (older own : Batches) (synced last : ℕ) → log.failed ≡ false → StandsOn log older own synced last (S.disk site.old)
            → LeavesOnly S.clock S.left_since site.old site.new (LeavesFirst older own synced (S.told site.old)) }

        ensures tells_nothing { TellsNothing S.Site site.old site.new }
        ensures causes { IfErr result IsOpening }
        ensures disk { IsErrOf result StoreErr.Disk → Rose (S.disk_faults site.old) (S.disk_faults site.new) }
    {
        names_one();
        batches_are_once();
        stores_stand();
        cuts_stand();
        let memory = read_logs(alloc, site)?;
        let number = next_number(memory.greatest)?;
        let wal = Wal::create(alloc, site, number)?;
        Ok(Store {
            wal,
            map: memory.map,
            last: memory.last,
            broken: false,
        })
    }

    /// Writes a batch: to the log, as one record, and then to the map. Its operations take the next sequences.
    ///
    /// Errors: `Broken` exactly where the store is broken; else `Full` with the last sequence exactly where the batch would
    /// pass sequence 2^56 - 1; `Disk`, after which the store is broken and reads as before, and some bytes may follow in the
    /// log; `OutOfMemory`, after which it is broken where the folder was asked, and the map may then hold the first operations
    /// of the batch. After `Broken`, after `Full`, and after `OutOfMemory` before the folder was asked nothing has changed.
    pub fn write<S: Site>(
        &mut self,
        alloc: Global,
        site: &mut S,
        batch: &Batch,
    ) -> Result<(), StoreErr>
        requires there { S.shows → IsSome (S.disk site.old (log_name self.old.log.number)) }
        ensures written { OnOk result (self.new ≡ wrote self.old batch.now) }
        ensures others { S.shows → KeepsAllBut (log_name self.old.log.number) (S.disk site.old) (S.disk site.new) }
        ensures appended { S.shows → OnOk result (Appends (log_name self.old.log.number) (next_record self.old batch.now) (next_record self.old batch.now) (S.disk site.old) (S.disk site.new)) }
        ensures carried { S.shows → OnOk result ((older own : Batches) (synced : ℕ) → Carries self.old older own synced (S.disk site.old)
            → Carries self.new older (own ++ next_batch self.old batch.now ∷ []) synced (S.disk site.new)) }
        ensures held { S.shows → OnErr result ((older own : Batches) (synced : ℕ) → Carries self.old older own synced (S.disk site.old)
            → MayHold self.old self.new batch.now older own synced (S.disk site.new)) }
        ensures broken { (result ≡ Err StoreErr.Broken) ↔ (self.old.broken ≡ true) }
        ensures full { (last : ℕ) → result ≡ Err (StoreErr.Full last) → (last ≡ self.old.last) × (2 ^ 56 ≤ last + length batch.now) }
        ensures fits { OnOk result (self.old.last + length batch.now < 2 ^ 56) }
        ensures refused { IfErr result (λ e. IsUntouched e → (self.new ≡ self.old) × (site.new ≡ site.old)) }
        ensures stays { OnErr result (self.new.broken ≡ false → self.new ≡ self.old) }

        // After `Disk` it reads as before.
        ensures reading { IsErrOf result StoreErr.Disk → (self.new.now ≡ self.old.now) × (self.new.last ≡ self.old.last) }
        ensures number { self.new.log.number ≡ self.old.log.number }
        ensures still_there { S.shows → IsSome (S.disk site.new (log_name self.old.log.number)) }

        // It is broken exactly after `Disk`, and after `OutOfMemory` once the folder was asked; else nothing has changed.
        ensures breaks { IsErrOf result StoreErr.Disk → self.new.broken ≡ true }
        ensures breaks_asked { IsErrOf result StoreErr.OutOfMemory → self.new.broken ≡ true → S.changes site.new ≡ one_more (S.changes site.old) }
        ensures unchanged { S.shows → OnErr result (self.new.broken ≡ false → KeepsDisk S.disk S.may_be S.certain site.old site.new) }
        ensures uncounted { OnErr result (self.new.broken ≡ false → S.changes site.new ≡ S.changes site.old) }

        ensures full_first { self.old.broken ≡ false → 2 ^ 56 ≤ self.old.last + length batch.now → result ≡ Err (StoreErr.Full self.old.last) }
        ensures torn { S.shows → OnErr result (MayAppend (log_name self.old.log.number) (next_record self.old batch.now) (S.disk site.old) (S.disk site.new)) }
        ensures certain { S.shows → S.certain site.old → S.certain site.new }

        // A cut during it leaves no synced batch out, and has at most this one besides those written.
        ensures cuts { S.shows → S.certain site.old → (older own : Batches) (synced : ℕ) → Carries self.old older own synced (S.disk site.old)
            → LeavesOnly S.clock S.left_since site.old site.new (LeavesFirst older (own ++ next_batch self.old batch.now ∷ []) synced (S.told site.old)) }

        ensures tells_nothing { TellsNothing S.Site site.old site.new }
        ensures causes { IfErr result IsWriting }
        ensures disk { IsErrOf result StoreErr.Disk → Rose (S.disk_faults site.old) (S.disk_faults site.new) }
    {
        cuts_stand();
        if self.broken {
            return Err(StoreErr::Broken);
        }
        let count = u64::from(batch.count());
        if self.last > MAX_SEQUENCE || count > MAX_SEQUENCE - self.last {
            return Err(StoreErr::Full(self.last));
        }
        records_are_batches();
        names_one();
        if let Err(error) = self.wal.append(alloc, site, self.last + 1, batch) {
            self.broken = self.wal.failed();
            return Err(error.into());
        }
        self.last += count;
        if let Err(error) = put_operations(alloc, &mut self.map, batch) {
            self.broken = true;
            return Err(error);
        }
        Ok(())
    }

    /// Lets the map go, so that its memory is free before the folder is opened again. The store is broken from then on, and its map
    /// empty.
    pub fn let_go(&mut self, alloc: Global)
        ensures broken { self.new.broken ≡ true }
        ensures gone { self.new ≡ record self.old { now = map_in []; broken = true } }
    {
        self.broken = true;
        self.map = BTreeMap::new(alloc);
    }

    /// Syncs the log in use: all batches written are on the disk.
    ///
    /// Errors: `Broken` exactly where the store is broken, and then nothing has changed; `Disk` and `OutOfMemory`, after which
    /// it is broken. It takes no memory of its own.
    pub fn sync<S: Site>(&mut self, site: &mut S) -> Result<(), StoreErr>
        requires there { S.shows → IsSome (S.disk site.old (log_name self.old.log.number)) }
        ensures same { OnOk result (self.new ≡ self.old) }
        ensures synced { S.shows → OnOk result (Syncs (log_name self.old.log.number) (S.disk site.old) (S.disk site.new)) }
        ensures others { S.shows → KeepsAllBut (log_name self.old.log.number) (S.disk site.old) (S.disk site.new) }
        ensures reads { S.shows → OnOk result (folder_of (S.disk site.new) ≡ folder_of (S.disk site.old)) }
        ensures carried { S.shows → OnOk result ((older own : Batches) (synced : ℕ) → Carries self.old older own synced (S.disk site.old)
            → Carries self.new older own (length own) (S.disk site.new)) }
        ensures held { S.shows → OnErr result ((older own : Batches) (synced : ℕ) → Carries self.old older own synced (S.disk site.old)
            → StandsOn self.new.log older own synced self.old.last (S.disk site.new)) }
        ensures certain { S.shows → S.certain site.old → S.certain site.new }

        // A cut during it leaves no synced batch out.
        ensures cuts { S.shows → S.certain site.old → (older own : Batches) (synced : ℕ) → Carries self.old older own synced (S.disk site.old)
            → LeavesOnly S.clock S.left_since site.old site.new (LeavesFirst older own synced (S.told site.old)) }

        // After a failure it is broken, and reads as before.
        ensures breaks { OnErr result (self.new.broken ≡ true) }
        ensures asked { IsErrOf result StoreErr.OutOfMemory → S.changes site.new ≡ one_more (S.changes site.old) }
        ensures reading { (self.new.now ≡ self.old.now) × (self.new.last ≡ self.old.last) × (self.new.log.number ≡ self.old.log.number) }
        ensures still_there { S.shows → IsSome (S.disk site.new (log_name self.old.log.number)) }
        ensures frayed { S.shows → IsErrOf result StoreErr.Disk → Frays (log_name self.old.log.number) (S.disk site.old) (S.disk site.new) }
        ensures kept { S.shows → IsErrOf result StoreErr.OutOfMemory → KeepsDisk S.disk S.may_be S.certain site.old site.new }

        ensures broken { (result ≡ Err StoreErr.Broken) ↔ (self.old.broken ≡ true) }
        ensures refused { IfErr result (λ e. IsUntouched e → (self.new ≡ self.old) × (site.new ≡ site.old)) }
        ensures tells_nothing { TellsNothing S.Site site.old site.new }
        ensures causes { IfErr result IsEnding }
        ensures disk { IsErrOf result StoreErr.Disk → Rose (S.disk_faults site.old) (S.disk_faults site.new) }
    {
        cuts_stand();
        if self.broken {
            return Err(StoreErr::Broken);
        }
        names_one();
        if let Err(error) = self.wal.sync(site) {
            self.broken = true;
            return Err(error.into());
        }
        Ok(())
    }

    /// The pairs whose keys are at `from` or behind it and before `to`, ascending.
    pub fn pairs<'s>(
        &'s self,
        from: Option<&'s Octets>,
        to: Option<&'s Octets>,
    ) -> Range<'s, Octets, Octets>
        ensures { result ≡ pairs_between (option_copied from.entry) (option_copied to.entry) self.now.now }
    {
        let _keys_ascend = self.map.len();
        match (from, to) {
            (Some(from), Some(to)) => between(&self.map, from, to),
            (Some(from), None) => self.map.range(from..),
            (None, Some(to)) => self.map.range(..to),
            (None, None) => self.map.range(..),
        }
    }

    /// The value of a key; None exactly where it has none.
    pub fn get(&self, key: &Octets) -> Option<&Octets>
        ensures { option_copied result ≡ get self.now.now key.now }
    {
        self.map.get(key)
    }

    /// Whether a writing call has failed. It becomes true exactly where one answered `Disk`, or `OutOfMemory` once the folder
    /// was asked. Calls that read go on; the store is to be opened again.
    pub fn is_broken(&self) -> bool
        ensures { result ≡ self.now.broken }
    {
        self.broken
    }
}
