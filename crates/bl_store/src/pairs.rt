//! Scans: the pairs of the map, one after the other.

ghost use Rattle.std.specs.Prelude.{◌≡◌, ℕ, Err, IfOk, IfErr, IsErrOf};
ghost use Rattle.bl_site.specs.Causes.{Rose};
ghost use Rattle.bl_site.specs.Disk.{Name, folder_of};
ghost use Rattle.bl_site.specs.Quiet.{OnlyReads};
ghost use Rattle.bl_entry.specs.Revisions.{Map};
ghost use Rattle.bl_read.specs.Reading.{IsDamaged};
ghost use Rattle.bl_read.specs.Scanning.{behind_told, next_in};
ghost use Rattle.bl_store.specs.Reading.{AsksSnapshot, GivesMap, IsReading, RefusesReading};
ghost use Rattle.bl_store.specs.Telling.{TellsNext, TellsOf};

use crate::error::StoreErr;
use crate::read::{At, stores_give_their_map};
use crate::store::Store;
use bl_cache::Files;
use bl_read::{Bound, Memories, Pair, Pairs, given_versions_are_whole, pairs_are_told_in_turn};
use bl_site::Site;
use std::alloc::Global;

impl Store {
    // The pairs of the map now, from the bound on.
    fn pairs_now<S: Site>(
        &self,
        alloc: Global,
        site: &mut S,
        bound: Bound,
    ) -> Result<Pairs, StoreErr>
        ensures tells_of { S.shows → IfOk result (TellsOf self.now (S.disk site.new)) }
        ensures bound { IfOk result (λ pairs. pairs.bound ≡ bound) }
        ensures corrupt { S.shows → (name : Name) (place : ℕ) → result ≡ Err (StoreErr.Corrupt name place) → IsDamaged (folder_of (S.disk site.old)) self.now.version name }
        ensures disk { IsErrOf result StoreErr.Disk → Rose (S.disk_faults site.old) (S.disk_faults site.new) }
        ensures causes { IfErr result IsReading }
        // The site is read, and nothing else.
        ensures quiet { OnlyReads S.Site site.old site.new }
    {
        match Pairs::open(alloc, site, &self.version, bound, self.last) {
            Ok(pairs) => Ok(pairs),
            Err(error) => Err(error.into()),
        }
    }

    /// Begins to tell the pairs of the map after all writes, from the bound on: `next_of` tells them one after the other, until
    /// something is written. Each table is read whole, once. Nothing is told to the site, and nothing changes.
    ///
    /// Errors: `NoSnapshot` with the number, exactly where a snapshot is asked for; `Corrupt`, only with a table or blob file
    /// of the version that is damaged; `Disk`, only where the disk failed in this call; `OutOfMemory`.
    pub fn pairs<S: Site>(
        &mut self,
        alloc: Global,
        site: &mut S,
        bound: Bound,
        at: At,
    ) -> Result<Pairs, StoreErr>
        ensures tells_of { S.shows → IfOk result (TellsOf self.new (S.disk site.new)) }
        ensures bound { IfOk result (λ pairs. pairs.bound ≡ bound) }
        ensures refuses { RefusesReading S.Site result self.old site.old site.new }
        ensures snapshot { AsksSnapshot at result }
        ensures stays { self.new ≡ self.old }
        // The site is read, and nothing else.
        ensures quiet { OnlyReads S.Site site.old site.new }
    {
        stores_give_their_map();
        given_versions_are_whole();
        self.show_order();
        match at {
            At::Now => self.pairs_now(alloc, site, bound),
            At::Snapshot(number) => Err(StoreErr::NoSnapshot(number)),
        }
    }

    // The next pair of these.
    fn next_told<S: Site>(
        &self,
        alloc: Global,
        site: &mut S,
        pairs: &mut Pairs,
    ) -> Result<Option<Pair>, StoreErr>
        ensures value { S.shows → TellsOf self.now (S.disk site.old) pairs.old → (m : Map) → GivesMap m self.now (S.disk site.old) → IfOk result (λ found. found ≡ next_in pairs.old.bound m) }
        ensures tells_of { S.shows → TellsOf self.now (S.disk site.old) pairs.old → TellsOf self.now (S.disk site.new) pairs.new }
        ensures bound { pairs.new.bound ≡ behind_told pairs.old.bound result }
        ensures corrupt { S.shows → TellsOf self.now (S.disk site.old) pairs.old → (name : Name) (place : ℕ) → result ≡ Err (StoreErr.Corrupt name place) → IsDamaged (folder_of (S.disk site.old)) self.now.version name }
        ensures disk { IsErrOf result StoreErr.Disk → Rose (S.disk_faults site.old) (S.disk_faults site.new) }
        // The site is read, and nothing else.
        ensures quiet { OnlyReads S.Site site.old site.new }
    {
        let memories = Memories {
            in_use: &self.memory,
            waiting: self.waiting_memory(),
        };
        let mut files = Files::start(alloc)?;
        match pairs.next(site, &mut files, memories) {
            Ok(found) => Ok(found),
            Err(error) => Err(error.into()),
        }
    }

    /// Tells the next pair of these, which were begun on the store as it is; None exactly where there is none left. Behind it
    /// those that are left begin; at the end, and after a refusal, what was left is left, so that a value that was not read may
    /// be asked for again. The tables are not read again. Nothing is told to the site, and the store does not change.
    ///
    /// Errors: `Corrupt`, only with a table or blob file of the version that is damaged; `Disk`, only where the disk failed in
    /// this call; `OutOfMemory`.
    pub fn next_of<S: Site>(
        &mut self,
        alloc: Global,
        site: &mut S,
        pairs: &mut Pairs,
    ) -> Result<Option<Pair>, StoreErr>
        ensures tells { S.shows → TellsOf self.old (S.disk site.old) pairs.old → TellsNext S.Site result self.old pairs.old pairs.new site.old site.new }
        ensures refuses { S.shows → TellsOf self.old (S.disk site.old) pairs.old → RefusesReading S.Site result self.old site.old site.new }
        ensures bound { pairs.new.bound ≡ behind_told pairs.old.bound result }
        ensures disk { IsErrOf result StoreErr.Disk → Rose (S.disk_faults site.old) (S.disk_faults site.new) }
        ensures stays { self.new ≡ self.old }
        // The site is read, and nothing else.
        ensures quiet { OnlyReads S.Site site.old site.new }
    {
        pairs_are_told_in_turn();
        stores_give_their_map();
        given_versions_are_whole();
        self.show_order();
        self.next_told(alloc, site, pairs)
    }
}
