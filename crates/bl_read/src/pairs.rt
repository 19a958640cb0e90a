//! The pairs of a map, one after the other.

ghost use Rattle.std.specs.Prelude.{◌≡◌, ℕ, IfOk, IfErr, IsErrOf, Err};
ghost use Rattle.std.specs.Option.{option_copied};
ghost use Rattle.bl_site.specs.Causes.{Rose};
ghost use Rattle.bl_site.specs.Disk.{Name, folder_of};
ghost use Rattle.bl_site.specs.Quiet.{OnlyReads};
ghost use Rattle.bl_build.specs.Listing.{Listing};
ghost use Rattle.bl_entry.specs.declared.run.RunErr.TheVariants.{Corrupt};
ghost use Rattle.bl_entry.specs.Revisions.{Map};
ghost use Rattle.bl_read.specs.declared.bound.Bound.TheVariants.{After};
ghost use Rattle.bl_read.specs.Giving.{Gives, memories_of};
ghost use Rattle.bl_read.specs.Reading.{IsDamaged};
ghost use Rattle.bl_read.specs.Scanning.{IsScan, behind_told, next_in};

use crate::bound::Bound;
use crate::memories::Memories;
use crate::put::copied;
use crate::tables::open_all;
use crate::told::{Told, told_next};
use bl_build::Version;
use bl_cache::{Files, TableRun};
use bl_code::Octets;
use bl_entry::RunErr;
use bl_merge::Merged;
use bl_site::Site;
use std::alloc::Global;
use std::marker::Model;

/// A key and its value.
#[derive(Drop)]
pub struct Pair {
    /// The user key.
    pub key: Octets,
    /// Its value.
    pub value: Octets,
}

// The first pair from the bound on: keys that are deleted are passed over.
fn pair_from<S: Site>(
    alloc: Global,
    site: &mut S,
    files: &mut Files,
    merged: &mut Merged<TableRun>,
    memories: Memories,
    mut bound: Bound,
    seq: u64,
) -> Result<Option<Pair>, RunErr>
    ensures value { S.shows → (version : Listing) → IsScan (folder_of (S.disk site.old)) version merged.old → (m : Map)
        → Gives (folder_of (S.disk site.old)) (record { version = version; memories = memories_of (option_copied memories.entry.waiting) memories.entry.in_use.now }) seq m → IfOk result (λ found. found ≡ next_in bound m) }
    ensures scan { S.shows → (version : Listing) → IsScan (folder_of (S.disk site.old)) version merged.old → IsScan (folder_of (S.disk site.old)) version merged.new }
    ensures corrupt { S.shows → (version : Listing) → IsScan (folder_of (S.disk site.old)) version merged.old → (name : Name) (place : ℕ) → result ≡ Err (Corrupt name place) → IsDamaged (folder_of (S.disk site.old)) version name }
    ensures disk { IsErrOf result RunErr.Disk → Rose (S.disk_faults site.old) (S.disk_faults site.new) }
    // The site is read, and nothing else.
    ensures quiet { OnlyReads S.Site site.old site.new }
{
    'keys: for _key in 0..u64::MAX {
        match told_next(alloc, site, files, merged, memories, &bound, seq)? {
            Some(Told { key, put }) => match put {
                Some(value) => return Ok(Some(Pair { key, value })),
                None => bound = Bound::After(key),
            },
            None => return Ok(None),
        }
    }
    // There are not so many keys.
    Err(RunErr::OutOfMemory)
}

// Behind a pair.
fn behind(alloc: Global, pair: &Pair) -> Result<Bound, RunErr>
    ensures bound { IfOk result (λ bound. bound ≡ After pair.now.key) }
    ensures memory { IfErr result (λ e. e ≡ RunErr.OutOfMemory) }
{
    Ok(Bound::After(copied(alloc, pair.key.as_slice())?))
}

/// Tells the pairs of the map that a version, with the memories beside it, gives at a sequence, one after the other in
/// key order. It keeps the entries of the version's tables in memory.
#[derive(Drop)]
pub struct Pairs {
    alloc: Global,
    merged: Merged<TableRun>,
    bound: Bound,
    seq: u64,
}

impl Model for Pairs {
    ghost use Rattle.bl_read.specs.Scan.{Scan};

    ghost Value = { Scan };

    ghost view = { λ p. record { tables = p.merged; bound = p.bound; seq = p.seq } };
}

impl Pairs {
    /// Stands at the bound, and tells at this sequence. Each table of the version is read whole, once.
    ///
    /// Errors: `Corrupt`, only with a table or blob file of the version that is damaged; `Disk`, only where the disk failed
    /// in this call; `OutOfMemory`.
    pub fn open<S: Site>(
        alloc: Global,
        site: &mut S,
        version: &Version,
        bound: Bound,
        seq: u64,
    ) -> Result<Pairs, RunErr>
        ensures bound { IfOk result (λ pairs. pairs.bound ≡ bound) }
        ensures seq { IfOk result (λ pairs. pairs.seq ≡ seq) }
        ensures scan { S.shows → IfOk result (λ pairs. IsScan (folder_of (S.disk site.old)) version.now pairs.tables) }
        ensures corrupt { S.shows → (name : Name) (place : ℕ) → result ≡ Err (Corrupt name place) → IsDamaged (folder_of (S.disk site.old)) version.now name }
        ensures disk { IsErrOf result RunErr.Disk → Rose (S.disk_faults site.old) (S.disk_faults site.new) }
        // The site is read, and nothing else.
        ensures quiet { OnlyReads S.Site site.old site.new }
    {
        let runs = open_all(alloc, site, version.all_tables())?;
        let merged = Merged::over(alloc, runs);
        Ok(Pairs {
            alloc,
            merged,
            bound,
            seq,
        })
    }

    /// The first pair of the map from where it stands on; None exactly where there is none. The memories are those beside
    /// the version that it was opened with. Once it has told a pair it stands behind it; at the end, and after a refusal,
    /// it stands where it stood, so that a value that was not read may be asked for again.
    ///
    /// Errors: `Corrupt`, only with a table or blob file of the version that is damaged, and so never where the folder
    /// gives some map; `Disk`, only where the disk failed in this call; `OutOfMemory`.
    pub fn next<S: Site>(
        &mut self,
        site: &mut S,
        files: &mut Files,
        memories: Memories,
    ) -> Result<Option<Pair>, RunErr>
        ensures value { S.shows → (version : Listing) → IsScan (folder_of (S.disk site.old)) version self.old.tables → (m : Map)
            → Gives (folder_of (S.disk site.old)) (record { version = version; memories = memories_of (option_copied memories.entry.waiting) memories.entry.in_use.now }) self.old.seq m → IfOk result (λ found. found ≡ next_in self.old.bound m) }
        ensures scan { S.shows → (version : Listing) → IsScan (folder_of (S.disk site.old)) version self.old.tables → IsScan (folder_of (S.disk site.old)) version self.new.tables }
        ensures bound { self.new.bound ≡ behind_told self.old.bound result }
        ensures seq { self.new.seq ≡ self.old.seq }
        ensures corrupt { S.shows → (version : Listing) → IsScan (folder_of (S.disk site.old)) version self.old.tables → (name : Name) (place : ℕ) → result ≡ Err (Corrupt name place) → IsDamaged (folder_of (S.disk site.old)) version name }
        ensures disk { IsErrOf result RunErr.Disk → Rose (S.disk_faults site.old) (S.disk_faults site.new) }
        // The site is read, and nothing else.
        ensures quiet { OnlyReads S.Site site.old site.new }
    {
        let bound = self.bound.copy(self.alloc)?;
        let found = pair_from(
            self.alloc,
            site,
            files,
            &mut self.merged,
            memories,
            bound,
            self.seq,
        )?;
        match found {
            Some(pair) => {
                self.bound = behind(self.alloc, &pair)?;
                Ok(Some(pair))
            }
            None => Ok(None),
        }
    }
}

/// The first pair at the bound or behind it of the map at this sequence; None exactly where there is none. Each table of
/// the version is read whole; of a value in a blob file its record alone is read.
///
/// Errors: `Corrupt`, only with a table or blob file of the version that is damaged, and so never where the folder gives
/// some map; `Disk`, only where the disk failed in this call; `OutOfMemory`.
pub fn next_pair<S: Site>(
    alloc: Global,
    site: &mut S,
    files: &mut Files,
    version: &Version,
    memories: Memories,
    bound: &Bound,
    seq: u64,
) -> Result<Option<Pair>, RunErr>
    ensures value { S.shows → (m : Map) → Gives (folder_of (S.disk site.old)) (record { version = version.now; memories = memories_of (option_copied memories.entry.waiting) memories.entry.in_use.now }) seq m
        → IfOk result (λ found. found ≡ next_in bound.now m) }
    ensures corrupt { S.shows → (name : Name) (place : ℕ) → result ≡ Err (Corrupt name place) → IsDamaged (folder_of (S.disk site.old)) version.now name }
    ensures disk { IsErrOf result RunErr.Disk → Rose (S.disk_faults site.old) (S.disk_faults site.new) }
    // The site is read, and nothing else.
    ensures quiet { OnlyReads S.Site site.old site.new }
{
    let bound = bound.copy(alloc)?;
    let mut pairs = Pairs::open(alloc, site, version, bound, seq)?;
    pairs.next(site, files, memories)
}
