//! Writing: a batch goes into the log in use and into the memory in use.

ghost use Rattle.std.specs.Prelude.{◌≡◌, ◌↔◌, ◌⊎◌, ℕ, ◌+◌, ◌<◌, ◌≤◌, ◌^◌, List, [], ◌++◌, length, false, true, Err, IfOk, IfErr, IsSome, OnOk, OnErr, IsErrOf};
ghost use Rattle.bl_site.specs.Causes.{Rose};
ghost use Rattle.bl_site.specs.Disk.{Name};
ghost use Rattle.std.specs.List.{AllByRecursion};
ghost use Rattle.bl_entry.specs.Batches.{IsOperation};
ghost use Rattle.bl_entry.specs.Written.{entries_from};
ghost use Rattle.bl_entry.specs.declared.key.Entry.{Entry as EntrySpec};
ghost use Rattle.bl_memtab.specs.Filled.{Holds};
ghost use Rattle.bl_store.specs.Calls.{Breaks, CutsOfCall, HasAppended, HasRoom, HasTaken, HasWritten, HasWrittenBehindRoom, LeavesStore, RefusesWrite, WritesOwn, next_flushed};
ghost use Rattle.bl_store.specs.Causes.{IsMaking, IsSyncing};
ghost use Rattle.bl_store.specs.Held.{Held, all_durable, with_write};
ghost use Rattle.bl_store.specs.Reading.{StillGives};
ghost use Rattle.bl_store.specs.Standing.{IsThere, StandsFor};

use crate::error::StoreErr;
use crate::read::stores_give_their_map;
use crate::store::Store;
use bl_code::Octets;
use bl_entry::{Batch, Operation};
use bl_folder::{folders_stand_for_one_map, held_are_whole, memories_tell_what_was_inserted};
use bl_memtab::{MemTable, batches_are_held};
use bl_names::names_one;
use bl_open::{steady_disks_are_left, steady_disks_stand, writes_keep_disks_steady};
use bl_read::sound_folders_give_their_map;
use bl_site::Site;
use bl_wal::entry_of;
use std::alloc::Global;

// The greatest sequence.
const MAX_SEQUENCE: u64 = (1 << 56) - 1;

// A copy of the operation.
fn copy_of(alloc: Global, operation: &Operation) -> Result<Operation, StoreErr>
    ensures copied { IfOk result (λ o. o ≡ operation.now) }
    ensures memory { IfErr result (λ e. e ≡ StoreErr.OutOfMemory) }
{
    let key = Octets::from_slice(alloc, operation.key.as_slice())?;
    let put = match &operation.put {
        Some(value) => Some(Octets::from_slice(alloc, value.as_slice())?),
        None => None,
    };
    Ok(Operation { key, put })
}

// Copies of a batch's operations go into the memory, with the sequences behind the last one.
fn insert_batch(
    alloc: Global,
    memory: &mut MemTable,
    last: u64,
    batch: &Batch,
) -> Result<(), StoreErr>
    requires bounds { last + length batch.now < 2 ^ 56 }
    requires holds { (written : List EntrySpec) × Holds memory.old written last }
    ensures holds { OnOk result ((written : List EntrySpec) → Holds memory.old written last → Holds memory.new (written ++ entries_from (last + 1) batch.now) (last + length batch.now)) }
    ensures partly { OnErr result (HasTaken batch.now last memory.old memory.new) }
    ensures fit { AllByRecursion IsOperation batch.now }
    ensures memory { IfErr result (λ e. e ≡ StoreErr.OutOfMemory) }
{
    batches_are_held();
    let mut seq = last;
    for operation in batch.operations() {
        seq += 1;
        let copy = copy_of(alloc, operation)?;
        memory.insert(entry_of(alloc, copy, seq))?;
    }
    Ok(())
}

impl Store {
    // Appends the batch to the log in use, and puts its operations into the memory in use. The store isn't broken, and the sequences fit.
    fn append<S: Site>(
        &mut self,
        alloc: Global,
        site: &mut S,
        batch: &Batch,
    ) -> Result<(), StoreErr>
        requires usable { self.old.broken ≡ false }
        requires room { self.old.last + length batch.now < 2 ^ 56 }
        requires there { S.shows → IsThere self.old (S.disk site.old) }
        ensures appended { OnOk result (HasAppended batch.now self.old self.new) }
        ensures next { self.new.next ≡ self.old.next }
        ensures breaks { Breaks S.Site result self.old self.new site.old site.new }
        ensures later { Rose (S.changes site.old) (S.changes site.new) ⊎ (S.changes site.new ≡ S.changes site.old) }
        ensures stands { S.shows → (names : List Name) (held : Held) → StandsFor names held self.old (S.disk site.old)
            → LeavesStore names held (with_write batch.now held) result self.new (S.disk site.new) }
        ensures gives { S.shows → (names : List Name) (held : Held) → StandsFor names held self.old (S.disk site.old) → StillGives held result self.new (S.disk site.new) }
        ensures cuts { S.shows → S.certain site.old → (held : Held) → StandsFor [] held self.old (S.disk site.old) → CutsOfCall S.Site held (with_write batch.now held) site.old site.new }
        ensures own { WritesOwn S.Site result self.old self.new site.old site.new }
        ensures causes { IfErr result IsSyncing }
        ensures disk { IsErrOf result StoreErr.Disk → Rose (S.disk_faults site.old) (S.disk_faults site.new) }
    {
        names_one();
        held_are_whole();
        folders_stand_for_one_map();
        memories_tell_what_was_inserted();
        sound_folders_give_their_map();
        stores_give_their_map();
        steady_disks_stand();
        steady_disks_are_left();
        writes_keep_disks_steady();
        if let Err(error) = self.wal.append(alloc, site, self.last + 1, batch) {
            self.broken = self.wal.failed();
            return Err(error.into());
        }
        if let Err(error) = insert_batch(alloc, &mut self.memory, self.last, batch) {
            self.broken = true;
            return Err(error);
        }
        self.last += u64::from(batch.count());
        Ok(())
    }

    // Makes room in memory: a waiting memory is flushed, and then the one in use waits.
    fn make_room<S: Site>(&mut self, alloc: Global, site: &mut S) -> Result<(), StoreErr>
        requires usable { self.old.broken ≡ false }
        requires there { S.shows → IsThere self.old (S.disk site.old) }
        ensures room { OnOk result (HasRoom self.old self.new) }
        ensures usable { OnOk result (self.new.broken ≡ false) }
        ensures full { (n : ℕ) → result ≡ Err (StoreErr.Full n) → (n ≡ 10 ^ 15) × (10 ^ 15 < next_flushed self.old + 1) }
        ensures upwards { self.old.next ≤ self.new.next }
        ensures breaks { Breaks S.Site result self.old self.new site.old site.new }
        ensures asked { OnOk result (Rose (S.changes site.old) (S.changes site.new)) }
        ensures stands { S.shows → (names : List Name) (held : Held) → StandsFor names held self.old (S.disk site.old)
            → LeavesStore names held (all_durable held) result self.new (S.disk site.new) }
        ensures gives { S.shows → (names : List Name) (held : Held) → StandsFor names held self.old (S.disk site.old) → StillGives held result self.new (S.disk site.new) }
        ensures cuts { S.shows → S.certain site.old → (held : Held) → StandsFor [] held self.old (S.disk site.old) → CutsOfCall S.Site held (all_durable held) site.old site.new }
        ensures own { WritesOwn S.Site result self.old self.new site.old site.new }
        ensures causes { IfErr result IsMaking }
        ensures disk { IsErrOf result StoreErr.Disk → Rose (S.disk_faults site.old) (S.disk_faults site.new) }
    {
        self.flush_waiting(alloc, site)?;
        self.switch(alloc, site)
    }

    // Appends the batch in a call that has asked the folder: each failure breaks the store.
    fn append_asked<S: Site>(
        &mut self,
        alloc: Global,
        site: &mut S,
        batch: &Batch,
    ) -> Result<(), StoreErr>
        requires usable { self.old.broken ≡ false }
        requires room { self.old.last + length batch.now < 2 ^ 56 }
        requires there { S.shows → IsThere self.old (S.disk site.old) }
        ensures appended { OnOk result (HasAppended batch.now self.old self.new) }
        ensures next { self.new.next ≡ self.old.next }
        ensures always { OnErr result (self.new.broken ≡ true) }
        ensures later { Rose (S.changes site.old) (S.changes site.new) ⊎ (S.changes site.new ≡ S.changes site.old) }
        ensures stands { S.shows → (names : List Name) (held : Held) → StandsFor names held self.old (S.disk site.old)
            → LeavesStore names held (with_write batch.now held) result self.new (S.disk site.new) }
        ensures gives { S.shows → (names : List Name) (held : Held) → StandsFor names held self.old (S.disk site.old) → StillGives held result self.new (S.disk site.new) }
        ensures cuts { S.shows → S.certain site.old → (held : Held) → StandsFor [] held self.old (S.disk site.old) → CutsOfCall S.Site held (with_write batch.now held) site.old site.new }
        ensures own { WritesOwn S.Site result self.old self.new site.old site.new }
        ensures causes { IfErr result IsSyncing }
        ensures disk { IsErrOf result StoreErr.Disk → Rose (S.disk_faults site.old) (S.disk_faults site.new) }
    {
        match self.append(alloc, site, batch) {
            Ok(()) => Ok(()),
            Err(error) => {
                self.broken = true;
                Err(error)
            }
        }
    }

    // Makes room, and appends the batch.
    fn write_behind_room<S: Site>(
        &mut self,
        alloc: Global,
        site: &mut S,
        batch: &Batch,
    ) -> Result<(), StoreErr>
        requires usable { self.old.broken ≡ false }
        requires room { self.old.last + length batch.now < 2 ^ 56 }
        requires there { S.shows → IsThere self.old (S.disk site.old) }
        ensures written { OnOk result (HasWrittenBehindRoom batch.now self.old self.new) }
        ensures full { (n : ℕ) → result ≡ Err (StoreErr.Full n) → (n ≡ 10 ^ 15) × (10 ^ 15 < next_flushed self.old + 1) }
        ensures breaks { Breaks S.Site result self.old self.new site.old site.new }
        ensures stands { S.shows → (names : List Name) (held : Held) → StandsFor names held self.old (S.disk site.old)
            → LeavesStore names held (with_write batch.now held) result self.new (S.disk site.new) }
        ensures gives { S.shows → (names : List Name) (held : Held) → StandsFor names held self.old (S.disk site.old) → StillGives held result self.new (S.disk site.new) }
        ensures cuts { S.shows → S.certain site.old → (held : Held) → StandsFor [] held self.old (S.disk site.old) → CutsOfCall S.Site held (with_write batch.now held) site.old site.new }
        ensures own { WritesOwn S.Site result self.old self.new site.old site.new }
        ensures causes { IfErr result IsMaking }
        ensures disk { IsErrOf result StoreErr.Disk → Rose (S.disk_faults site.old) (S.disk_faults site.new) }
    {
        self.make_room(alloc, site)?;
        self.append_asked(alloc, site, batch)
    }

    /// Writes a batch: to the log in use, as one record, and into memory. Its operations take the next sequences. Where the memory in
    /// use has reached its bound, the option `write_buffer`, there is room made first: a waiting memory is flushed into a table and its
    /// blob files, the log in use is synced, the next one is made, and the memory waits.
    ///
    /// Errors: `Broken` exactly where the store is broken; else `Full` with the last sequence exactly where the batch would pass
    /// sequence 2^56 - 1, and with 10^15 exactly where room takes more file numbers than are left and no other failure comes before;
    /// `Disk`; `OutOfMemory`. After `Disk`, and
    /// after `OutOfMemory` once the folder was asked, the store is broken, and the batch may be in the folder or not. Else the batch is
    /// not written, and the store holds what it held. Either way readers are given the map that it held.
    pub fn write<S: Site>(
        &mut self,
        alloc: Global,
        site: &mut S,
        batch: &Batch,
    ) -> Result<(), StoreErr>
        requires there { S.shows → IsThere self.old (S.disk site.old) }
        ensures broken { (result ≡ Err StoreErr.Broken) ↔ (self.old.broken ≡ true) }
        ensures refuses { RefusesWrite batch.now self.old result }
        ensures written { OnOk result (HasWritten batch.now self.old self.new) }
        ensures breaks { self.old.broken ≡ false → Breaks S.Site result self.old self.new site.old site.new }
        ensures stays { self.old.broken ≡ true → (self.new ≡ self.old) × (site.new ≡ site.old) }
        ensures stands { S.shows → self.old.broken ≡ false → (names : List Name) (held : Held) → StandsFor names held self.old (S.disk site.old)
            → LeavesStore names held (with_write batch.now held) result self.new (S.disk site.new) }
        ensures gives { S.shows → self.old.broken ≡ false → (names : List Name) (held : Held) → StandsFor names held self.old (S.disk site.old) → StillGives held result self.new (S.disk site.new) }
        ensures cuts { S.shows → S.certain site.old → self.old.broken ≡ false → (held : Held) → StandsFor [] held self.old (S.disk site.old) → CutsOfCall S.Site held (with_write batch.now held) site.old site.new }
        ensures own { WritesOwn S.Site result self.old self.new site.old site.new }
        ensures disk { IsErrOf result StoreErr.Disk → Rose (S.disk_faults site.old) (S.disk_faults site.new) }
    {
        stores_give_their_map();
        steady_disks_stand();
        steady_disks_are_left();
        if self.broken {
            return Err(StoreErr::Broken);
        }
        if u64::from(batch.count()) > MAX_SEQUENCE - self.last {
            return Err(StoreErr::Full(self.last));
        }
        if self.memory.bytes() < self.standing.options.write_buffer {
            return self.append(alloc, site, batch);
        }
        let written = self.write_behind_room(alloc, site, batch);
        self.show_next();
        written
    }
}
