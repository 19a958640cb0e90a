//! The value of a key.

ghost use Rattle.std.specs.Prelude.{◌≡◌, ℕ, IfOk, IsErrOf, Err};
ghost use Rattle.std.specs.FinMap.{get};
ghost use Rattle.std.specs.Option.{option_copied};
ghost use Rattle.bl_site.specs.Causes.{Rose};
ghost use Rattle.bl_site.specs.Disk.{Name, folder_of};
ghost use Rattle.bl_site.specs.Quiet.{OnlyReads};
ghost use Rattle.bl_entry.specs.declared.run.RunErr.TheVariants.{Corrupt};
ghost use Rattle.bl_entry.specs.Revisions.{Map};
ghost use Rattle.bl_read.specs.Giving.{Gives, memories_of};
ghost use Rattle.bl_read.specs.Reading.{IsDamaged, IsTold};

use crate::memories::Memories;
use crate::put::{put_in_memory, put_in_table};
use crate::tables::open_tables;
use bl_build::Version;
use bl_cache::{Files, named_are_read, runs_are_tables};
use bl_code::Octets;
use bl_entry::{RunErr, later_are_told_first, latest_is_the_value};
use bl_merge::{Merged, latest_tells_the_value, merged_lists_are_in_order};
use bl_out::order_does_not_matter;
use bl_site::Site;
use bl_table::tables_are_read_block_by_block;
use std::alloc::Global;

// What the tables of a version tell of a user key at a sequence.
fn find_in_tables<S: Site>(
    alloc: Global,
    site: &mut S,
    files: &mut Files,
    version: &Version,
    key: &[u8],
    seq: u64,
) -> Result<Option<Octets>, RunErr>
    ensures told { S.shows → IfOk result (λ found. IsTold (folder_of (S.disk site.old)) version.now.tables key.now seq found) }
    ensures corrupt { S.shows → (name : Name) (place : ℕ) → result ≡ Err (Corrupt name place) → IsDamaged (folder_of (S.disk site.old)) version.now name }
    ensures disk { IsErrOf result RunErr.Disk → Rose (S.disk_faults site.old) (S.disk_faults site.new) }
    // The site is read, and nothing else.
    ensures quiet { OnlyReads S.Site site.old site.new }
{
    merged_lists_are_in_order();
    let runs = open_tables(alloc, site, version.all_tables(), key)?;
    let mut merged = Merged::over(alloc, runs);
    match merged.visible(site, key, seq)? {
        Some(entry) => put_in_table(alloc, site, files, entry),
        None => Ok(None),
    }
}

/// The value of this key in the map at this sequence, or None where it has none. The memory in use is asked first, then
/// the one that waits, and then the tables in whose range the key is, each of which is read whole; of a value in a blob
/// file its record alone is read.
///
/// Errors: `Corrupt`, only with a table or blob file of the version that is damaged, and so never where the folder gives
/// some map; `Disk`, only where the disk failed in this call; `OutOfMemory`.
pub fn find<S: Site>(
    alloc: Global,
    site: &mut S,
    files: &mut Files,
    version: &Version,
    memories: Memories,
    key: &[u8],
    seq: u64,
) -> Result<Option<Octets>, RunErr>
    ensures value { S.shows → (m : Map) → Gives (folder_of (S.disk site.old)) (record { version = version.now; memories = memories_of (option_copied memories.entry.waiting) memories.entry.in_use.now }) seq m
        → IfOk result (λ found. found ≡ get m key.now) }
    ensures corrupt { S.shows → (name : Name) (place : ℕ) → result ≡ Err (Corrupt name place) → IsDamaged (folder_of (S.disk site.old)) version.now name }
    ensures disk { IsErrOf result RunErr.Disk → Rose (S.disk_faults site.old) (S.disk_faults site.new) }
    // The site is read, and nothing else.
    ensures quiet { OnlyReads S.Site site.old site.new }
{
    later_are_told_first();
    latest_is_the_value();
    merged_lists_are_in_order();
    latest_tells_the_value();
    order_does_not_matter();
    runs_are_tables();
    named_are_read();
    tables_are_read_block_by_block();
    match memories.latest(key, seq) {
        Some(entry) => put_in_memory(alloc, entry),
        None => find_in_tables(alloc, site, files, version, key, seq),
    }
}
