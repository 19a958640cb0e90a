//! Reading: the value of a key, and the pairs of the map in key order.

ghost use Rattle.std.specs.Prelude.{◌≡◌, ◌↔◌, ℕ, Err, IfOk, IfErr, IsErrOf, OnErr};
ghost use Rattle.std.specs.FinMap.{get};
ghost use Rattle.std.specs.Option.{option_copied};
ghost use Rattle.bl_site.specs.Causes.{Rose};
ghost use Rattle.bl_site.specs.Disk.{Name, folder_of};
ghost use Rattle.bl_site.specs.Quiet.{OnlyReads};
ghost use Rattle.bl_entry.specs.Revisions.{Map};
ghost use Rattle.bl_read.specs.Giving.{memories_of};
ghost use Rattle.bl_read.specs.Reading.{IsDamaged};
ghost use Rattle.bl_read.specs.Scanning.{next_in};
ghost use Rattle.bl_store.specs.Reading.{AnswersBy, AsksSnapshot, GivesMap, IsReading, RefusesReading, StoresGiveTheirMap, waiting_in};
ghost use Rattle.bl_store.specs.Stored.{IsInOrder};

use crate::error::StoreErr;
use crate::store::Store;
use bl_cache::Files;
use bl_code::Octets;
use bl_folder::{folders_stand_for_one_map, memories_tell_what_was_inserted};
use bl_memtab::MemTable;
use bl_open::steady_disks_stand;
use bl_read::{
    Bound, Memories, Pair, find, given_versions_are_whole, next_pair as first_pair,
    sound_folders_give_their_map,
};
use bl_site::Site;
use std::alloc::Global;

/// Which map is read.
#[derive(Clone, Copy)]
pub enum At {
    /// The one after all writes.
    Now,
    /// The one that the snapshot of this number sees. No snapshot is live yet.
    Snapshot(u64),
}

/// A store that stands on the disk for what it holds, and is not broken, gives readers the map after all its writes.
pub fn stores_give_their_map()
    ensures { StoresGiveTheirMap }
{
    folders_stand_for_one_map();
    memories_tell_what_was_inserted();
    sound_folders_give_their_map();
    steady_disks_stand();
}

impl Store {
    // Its numbers and its memories are in order.
    pub(crate) fn show_order(&self)
        ensures { IsInOrder self.now }
    {
        let _broken = self.broken;
    }

    // The memory that waits, where one does.
    pub(crate) fn waiting_memory(&self) -> Option<&MemTable>
        ensures { option_copied result ≡ waiting_in self.now.waiting }
    {
        match &self.waiting {
            Some(waiting) => Some(&waiting.memory),
            None => None,
        }
    }

    // The value of a key in the map now.
    fn find_now<S: Site>(
        &self,
        alloc: Global,
        site: &mut S,
        key: &[u8],
    ) -> Result<Option<Octets>, StoreErr>
        ensures value { S.shows → (m : Map) → GivesMap m self.now (S.disk site.old) → IfOk result (λ found. found ≡ get m key.now) }
        ensures corrupt { S.shows → (name : Name) (place : ℕ) → result ≡ Err (StoreErr.Corrupt name place) → IsDamaged (folder_of (S.disk site.old)) self.now.version name }
        ensures disk { IsErrOf result StoreErr.Disk → Rose (S.disk_faults site.old) (S.disk_faults site.new) }
        ensures causes { IfErr result IsReading }
        // The site is read, and nothing else.
        ensures quiet { OnlyReads S.Site site.old site.new }
    {
        let memories = Memories {
            in_use: &self.memory,
            waiting: self.waiting_memory(),
        };
        let mut files = Files::start(alloc)?;
        let version = &self.version;
        match find(alloc, site, &mut files, version, memories, key, self.last) {
            Ok(found) => Ok(found),
            Err(error) => Err(error.into()),
        }
    }

    /// The value of this key in the map after all writes, or None exactly where it has none. It goes on once the store is
    /// broken, by what its version and its memories give. The memory in use is asked first, then the one that waits, and then
    /// the tables, each of which is read whole. Nothing is told, and nothing changes.
    ///
    /// Errors: `NoSnapshot` with the number, exactly where a snapshot is asked for; `Corrupt`, only with a table or blob file
    /// of the version that is damaged; `Disk`, only where the disk failed in this call; `OutOfMemory`.
    pub fn get<S: Site>(
        &mut self,
        alloc: Global,
        site: &mut S,
        key: &[u8],
        at: At,
    ) -> Result<Option<Octets>, StoreErr>
        ensures answers { AnswersBy S.Site (λ m. get m key.now) result self.old site.old }
        ensures refuses { RefusesReading S.Site result self.old site.old site.new }
        ensures snapshot { AsksSnapshot at result }
        ensures stays { self.new ≡ self.old }
        // The site is read, and nothing else.
        ensures quiet { OnlyReads S.Site site.old site.new }
    {
        stores_give_their_map();
        given_versions_are_whole();
        self.show_order();
        match at {
            At::Now => self.find_now(alloc, site, key),
            At::Snapshot(number) => Err(StoreErr::NoSnapshot(number)),
        }
    }

    // The first pair at the bound or behind it of the map now.
    fn pair_now<S: Site>(
        &self,
        alloc: Global,
        site: &mut S,
        bound: &Bound,
    ) -> Result<Option<Pair>, StoreErr>
        ensures value { S.shows → (m : Map) → GivesMap m self.now (S.disk site.old) → IfOk result (λ found. found ≡ next_in bound.now m) }
        ensures corrupt { S.shows → (name : Name) (place : ℕ) → result ≡ Err (StoreErr.Corrupt name place) → IsDamaged (folder_of (S.disk site.old)) self.now.version name }
        ensures disk { IsErrOf result StoreErr.Disk → Rose (S.disk_faults site.old) (S.disk_faults site.new) }
        ensures causes { IfErr result IsReading }
        // The site is read, and nothing else.
        ensures quiet { OnlyReads S.Site site.old site.new }
    {
        let memories = Memories {
            in_use: &self.memory,
            waiting: self.waiting_memory(),
        };
        let mut files = Files::start(alloc)?;
        let version = &self.version;
        match first_pair(alloc, site, &mut files, version, memories, bound, self.last) {
            Ok(found) => Ok(found),
            Err(error) => Err(error.into()),
        }
    }

    /// The first pair at the bound or behind it of the map after all writes, in key order; None exactly where there is none.
    /// It goes on once the store is broken, by what its version and its memories give. Each table is read whole. Nothing is
    /// told, and nothing changes.
    ///
    /// Errors: `NoSnapshot` with the number, exactly where a snapshot is asked for; `Corrupt`, only with a table or blob file
    /// of the version that is damaged; `Disk`, only where the disk failed in this call; `OutOfMemory`.
    pub fn next_pair<S: Site>(
        &mut self,
        alloc: Global,
        site: &mut S,
        bound: &Bound,
        at: At,
    ) -> Result<Option<Pair>, StoreErr>
        ensures answers { AnswersBy S.Site (next_in bound.now) result self.old site.old }
        ensures refuses { RefusesReading S.Site result self.old site.old site.new }
        ensures snapshot { AsksSnapshot at result }
        ensures stays { self.new ≡ self.old }
        // The site is read, and nothing else.
        ensures quiet { OnlyReads S.Site site.old site.new }
    {
        stores_give_their_map();
        given_versions_are_whole();
        self.show_order();
        match at {
            At::Now => self.pair_now(alloc, site, bound),
            At::Snapshot(number) => Err(StoreErr::NoSnapshot(number)),
        }
    }
}
