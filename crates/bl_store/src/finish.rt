//! Finishing: a store is left so that every cut leaves all its writes.

ghost use Rattle.std.specs.Prelude.{◌≡◌, ◌↔◌, List, [], false, true, Err, IfErr, OnErr, OnOk, IsErrOf};
ghost use Rattle.bl_site.specs.Causes.{Rose};
ghost use Rattle.bl_site.specs.Disk.{Name};
ghost use Rattle.bl_store.specs.Calls.{Breaks, CutsOfCall, LeavesStore, WritesOwn};
ghost use Rattle.bl_store.specs.Causes.{IsSyncing, OrBroken};
ghost use Rattle.bl_store.specs.Finishing.{DurableStoresAreLeft, DurableStoresAreSynced, IsAtRest};
ghost use Rattle.bl_store.specs.Held.{Held, all_durable};
ghost use Rattle.bl_store.specs.Reading.{StillGives};
ghost use Rattle.bl_store.specs.Standing.{IsThere, StandsFor};

use crate::error::StoreErr;
use crate::store::Store;
use bl_open::{steady_disks_are_left, steady_disks_stand};
use bl_site::Site;

/// Where a store stands on the disk and all its writes are durable, a cut leaves the map after all of them, whatever
/// checksum may match by chance; and while the store is not broken, no needed file has an unsynced byte.
pub fn durable_stores_are_left()
    ensures synced { DurableStoresAreSynced }
    ensures left { DurableStoresAreLeft }
{
    steady_disks_are_left();
}

impl Store {
    /// Ends a script: syncs the log in use. At `Ok` all writes are durable and no needed file has an unsynced byte, so that
    /// every cut from then on leaves the last map, whatever checksum may match by chance. Nothing else changes, and the store
    /// may go on. Files that are not needed any more stay where they are.
    ///
    /// Errors: `Broken` exactly where the store is broken; `Disk` and `OutOfMemory`, either of which breaks the store. It holds
    /// what it held then, and gives readers that, but no more writes are known to be durable.
    pub fn finish<S: Site>(&mut self, site: &mut S) -> Result<(), StoreErr>
        requires there { S.shows → IsThere self.old (S.disk site.old) }
        ensures broken { (result ≡ Err StoreErr.Broken) ↔ (self.old.broken ≡ true) }
        ensures finished { OnOk result (self.new ≡ self.old) }
        ensures failed { self.old.broken ≡ false → OnErr result (self.new ≡ record self.old { log = self.new.log; broken = true }) }
        ensures breaks { self.old.broken ≡ false → Breaks S.Site result self.old self.new site.old site.new }
        ensures stays { self.old.broken ≡ true → (self.new ≡ self.old) × (site.new ≡ site.old) }
        ensures stands { S.shows → self.old.broken ≡ false → (names : List Name) (held : Held) → StandsFor names held self.old (S.disk site.old)
            → LeavesStore names held (all_durable held) result self.new (S.disk site.new) }
        ensures rests { S.shows → self.old.broken ≡ false → (held : Held) → StandsFor [] held self.old (S.disk site.old) → OnOk result (IsAtRest S.Site held self.new site.new) }
        ensures gives { S.shows → self.old.broken ≡ false → (names : List Name) (held : Held) → StandsFor names held self.old (S.disk site.old) → StillGives held result self.new (S.disk site.new) }
        ensures cuts { S.shows → S.certain site.old → self.old.broken ≡ false → (held : Held) → StandsFor [] held self.old (S.disk site.old) → CutsOfCall S.Site held (all_durable held) site.old site.new }
        ensures own { WritesOwn S.Site result self.old self.new site.old site.new }
        ensures causes { IfErr result (OrBroken IsSyncing) }
        ensures disk { IsErrOf result StoreErr.Disk → Rose (S.disk_faults site.old) (S.disk_faults site.new) }
    {
        durable_stores_are_left();
        steady_disks_stand();
        self.show_order();
        self.sync(site)
    }
}
