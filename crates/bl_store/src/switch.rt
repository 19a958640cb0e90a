//! The log in use: it is synced, and the next one is made.

ghost use Rattle.std.specs.Prelude.{◌≡◌, ◌↔◌, ◌⊎◌, ℕ, ◌+◌, ◌<◌, ◌≤◌, ◌^◌, List, [], false, true, Some, None, Err, IfErr, IsSome, OnOk, OnErr, IsErrOf};
ghost use Rattle.bl_site.specs.Causes.{Rose};
ghost use Rattle.bl_site.specs.Disk.{Name};
ghost use Rattle.bl_names.specs.Names.{IsNumber};
ghost use Rattle.bl_wal.specs.LogFile.{new_log};
ghost use Rattle.bl_store.specs.Calls.{Breaks, CutsOfCall, LeavesStore, WritesOwn};
ghost use Rattle.bl_store.specs.Causes.{IsMaking, IsSyncing, OrBroken};
ghost use Rattle.bl_store.specs.Held.{Held, all_durable};
ghost use Rattle.bl_store.specs.Reading.{StillGives};
ghost use Rattle.bl_store.specs.Standing.{IsThere, StandsFor};
ghost use Rattle.bl_store.specs.Switching.{switched, undrawn};

use crate::error::StoreErr;
use crate::read::stores_give_their_map;
use crate::store::{Store, Waiting};
use bl_entry::batches_join;
use bl_folder::{held_are_whole, memories_tell_what_was_inserted};
use bl_memtab::{MemTable, batches_are_held};
use bl_names::{FILE_LIMIT, names_one};
use bl_open::{
    quiet_calls_keep_disks_steady, steady_disks_are_left, steady_disks_stand,
    writes_keep_disks_steady,
};
use bl_site::Site;
use bl_wal::{Wal, logs_are_read};
use std::alloc::Global;
use std::mem::replace;

impl Store {
    // Syncs the log in use: all that was written is durable.
    pub(crate) fn sync_log<S: Site>(&mut self, site: &mut S) -> Result<(), StoreErr>
        requires usable { self.old.broken ≡ false }
        requires there { S.shows → IsThere self.old (S.disk site.old) }
        ensures same { OnOk result (self.new ≡ self.old) }
        ensures asked { Rose (S.changes site.old) (S.changes site.new) }
        ensures always { OnErr result (self.new ≡ record self.old { log = self.new.log; broken = true }) }
        ensures breaks { Breaks S.Site result self.old self.new site.old site.new }
        ensures stands { S.shows → (names : List Name) (held : Held) → StandsFor names held self.old (S.disk site.old)
            → LeavesStore names held (all_durable held) result self.new (S.disk site.new) }
        ensures gives { S.shows → (names : List Name) (held : Held) → StandsFor names held self.old (S.disk site.old) → StillGives held result self.new (S.disk site.new) }
        ensures cuts { S.shows → S.certain site.old → (held : Held) → StandsFor [] held self.old (S.disk site.old) → CutsOfCall S.Site held (all_durable held) site.old site.new }
        ensures own { WritesOwn S.Site result self.old self.new site.old site.new }
        ensures causes { IfErr result IsSyncing }
        ensures disk { IsErrOf result StoreErr.Disk → Rose (S.disk_faults site.old) (S.disk_faults site.new) }
    {
        names_one();
        held_are_whole();
        stores_give_their_map();
        steady_disks_stand();
        steady_disks_are_left();
        writes_keep_disks_steady();
        if let Err(error) = self.wal.sync(site) {
            self.broken = true;
            return Err(error.into());
        }
        Ok(())
    }

    /// Syncs the log in use: behind it all writes are durable. Nothing else changes.
    ///
    /// Errors: `Broken` exactly where the store is broken; `Disk` and `OutOfMemory`, either of which breaks the store. It holds what it
    /// held then, and gives readers that, but no more writes are known to be durable.
    pub fn sync<S: Site>(&mut self, site: &mut S) -> Result<(), StoreErr>
        requires there { S.shows → IsThere self.old (S.disk site.old) }
        ensures broken { (result ≡ Err StoreErr.Broken) ↔ (self.old.broken ≡ true) }
        ensures synced { OnOk result (self.new ≡ self.old) }
        ensures failed { self.old.broken ≡ false → OnErr result (self.new ≡ record self.old { log = self.new.log; broken = true }) }
        ensures breaks { self.old.broken ≡ false → Breaks S.Site result self.old self.new site.old site.new }
        ensures stays { self.old.broken ≡ true → (self.new ≡ self.old) × (site.new ≡ site.old) }
        ensures stands { S.shows → self.old.broken ≡ false → (names : List Name) (held : Held) → StandsFor names held self.old (S.disk site.old)
            → LeavesStore names held (all_durable held) result self.new (S.disk site.new) }
        ensures gives { S.shows → self.old.broken ≡ false → (names : List Name) (held : Held) → StandsFor names held self.old (S.disk site.old) → StillGives held result self.new (S.disk site.new) }
        ensures cuts { S.shows → S.certain site.old → self.old.broken ≡ false → (held : Held) → StandsFor [] held self.old (S.disk site.old) → CutsOfCall S.Site held (all_durable held) site.old site.new }
        ensures own { WritesOwn S.Site result self.old self.new site.old site.new }
        ensures causes { IfErr result (OrBroken IsSyncing) }
        ensures disk { IsErrOf result StoreErr.Disk → Rose (S.disk_faults site.old) (S.disk_faults site.new) }
    {
        if self.broken {
            return Err(StoreErr::Broken);
        }
        self.sync_log(site)
    }

    // Makes the log of this number, which was drawn, and puts it in use; the memory waits. No memory waits before, and all writes are
    // durable.
    fn make_log<S: Site>(
        &mut self,
        alloc: Global,
        site: &mut S,
        number: u64,
    ) -> Result<(), StoreErr>
        requires usable { self.old.broken ≡ false }
        requires none { self.old.waiting ≡ None }
        requires number { IsNumber number }
        requires drawn { self.old.next ≡ number + 1 }
        requires there { S.shows → IsThere self.old (S.disk site.old) }
        ensures switched { OnOk result (self.new ≡ switched number self.old) }
        ensures broken { OnErr result (self.new ≡ record self.old { broken = true }) }
        ensures stands { S.shows → (names : List Name) (held : Held) → StandsFor names (all_durable held) (undrawn number self.old) (S.disk site.old)
            → LeavesStore names (all_durable held) (all_durable held) result self.new (S.disk site.new) }
        ensures gives { S.shows → (names : List Name) (held : Held) → StandsFor names (all_durable held) (undrawn number self.old) (S.disk site.old) → StillGives held result self.new (S.disk site.new) }
        ensures cuts { S.shows → S.certain site.old → (held : Held) → StandsFor [] (all_durable held) (undrawn number self.old) (S.disk site.old)
            → CutsOfCall S.Site (all_durable held) (all_durable held) site.old site.new }
        ensures next { self.new.next ≡ self.old.next }
        ensures asked { Rose (S.changes site.old) (S.changes site.new) ⊎ (S.changes site.new ≡ S.changes site.old) }
        ensures own { WritesOwn S.Site result (undrawn number self.old) self.new site.old site.new }
        ensures causes { IfErr result IsSyncing }
        ensures disk { IsErrOf result StoreErr.Disk → Rose (S.disk_faults site.old) (S.disk_faults site.new) }
    {
        names_one();
        logs_are_read();
        batches_join();
        batches_are_held();
        memories_tell_what_was_inserted();
        held_are_whole();
        stores_give_their_map();
        steady_disks_stand();
        steady_disks_are_left();
        quiet_calls_keep_disks_steady();
        writes_keep_disks_steady();
        match Wal::create(alloc, site, number) {
            Ok(wal) => {
                self.wal = wal;
                let memory = replace(&mut self.memory, MemTable::start(alloc));
                self.waiting = Some(Waiting {
                    memory,
                    last: self.last,
                    log: number,
                });
                Ok(())
            }
            Err(error) => {
                self.broken = true;
                Err(error.into())
            }
        }
    }

    // Switches the memory: the log in use is synced, the next log is made and put in use, and the memory waits, with an empty one in
    // use. No memory waits before. Where no number is left nothing is done.
    pub(crate) fn switch<S: Site>(&mut self, alloc: Global, site: &mut S) -> Result<(), StoreErr>
        requires usable { self.old.broken ≡ false }
        requires none { self.old.waiting ≡ None }
        requires there { S.shows → IsThere self.old (S.disk site.old) }
        ensures switched { OnOk result (self.new ≡ switched self.old.next self.old) }
        ensures full { (n : ℕ) → result ≡ Err (StoreErr.Full n) → (n ≡ 10 ^ 15) × (self.old.next ≡ 10 ^ 15) × (self.new ≡ self.old) × (site.new ≡ site.old) }
        ensures always { IsErrOf result StoreErr.OutOfMemory → self.new.broken ≡ true }
        ensures number { OnOk result (IsNumber self.old.next) }
        ensures asked { OnOk result (Rose (S.changes site.old) (S.changes site.new)) }
        ensures upwards { self.old.next ≤ self.new.next }
        ensures breaks { Breaks S.Site result self.old self.new site.old site.new }
        ensures stands { S.shows → (names : List Name) (held : Held) → StandsFor names held self.old (S.disk site.old)
            → LeavesStore names held (all_durable held) result self.new (S.disk site.new) }
        ensures gives { S.shows → (names : List Name) (held : Held) → StandsFor names held self.old (S.disk site.old) → StillGives held result self.new (S.disk site.new) }
        ensures cuts { S.shows → S.certain site.old → (held : Held) → StandsFor [] held self.old (S.disk site.old) → CutsOfCall S.Site held (all_durable held) site.old site.new }
        ensures own { WritesOwn S.Site result self.old self.new site.old site.new }
        ensures causes { IfErr result IsMaking }
        ensures disk { IsErrOf result StoreErr.Disk → Rose (S.disk_faults site.old) (S.disk_faults site.new) }
    {
        stores_give_their_map();
        steady_disks_stand();
        steady_disks_are_left();
        if self.numbers.next() == FILE_LIMIT {
            return Err(StoreErr::Full(FILE_LIMIT));
        }
        self.sync_log(site)?;
        let number = self.numbers.draw()?;
        self.make_log(alloc, site, number)
    }
}
