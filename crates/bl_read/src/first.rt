//! The first entry from a bound on that is told at a sequence.

ghost use Rattle.std.specs.Prelude.{◌≡◌, ℕ, List, Err, IfOk, IfSome, IsErrOf};
ghost use Rattle.std.specs.Option.{option_copied};
ghost use Rattle.bl_site.specs.Causes.{Rose};
ghost use Rattle.bl_site.specs.Disk.{Name, folder_of};
ghost use Rattle.bl_site.specs.Quiet.{OnlyReads};
ghost use Rattle.bl_entry.specs.Entries.{IsProper};
ghost use Rattle.bl_entry.specs.declared.key.Entry.{Entry};
ghost use Rattle.bl_entry.specs.declared.run.RunErr.TheVariants.{Corrupt};
ghost use Rattle.bl_merge.specs.Lists.{merged as merged_of};
ghost use Rattle.bl_read.specs.Giving.{memories_of};
ghost use Rattle.bl_read.specs.Scanning.{IsOver, IsStartOf, first_in, first_told, nearer as nearer_of};

use crate::bound::Bound;
use crate::memories::Memories;
use bl_cache::TableRun;
use bl_entry::{Entry, InternalKey, RunErr};
use bl_memtab::{MemTable, after_is_next, ascends};
use bl_merge::Merged;
use bl_site::Site;

// Of a memory. At `from` the bound begins.
fn first_in_memory<'a>(
    memory: &'a MemTable,
    from: &InternalKey,
    bound: &Bound,
    seq: u64,
) -> Option<&'a Entry>
    requires { IsStartOf bound.now from.now }
    ensures { option_copied result ≡ first_told bound.now seq memory.now }
{
    ascends(memory);
    after_is_next();
    let mut at = memory.after(from, false);
    'entries: for _entry in 0..memory.count() {
        let entry = at?;
        if bound.tells(entry, seq) {
            return Some(entry);
        }
        at = memory.after(&entry.key, true);
    }
    None
}

// The entry of the lesser user key, and of one user key the newer entry.
fn nearer<'a>(newer: Option<&'a Entry>, older: Option<&'a Entry>) -> Option<&'a Entry>
    ensures { option_copied result ≡ nearer_of (option_copied newer.entry) (option_copied older.entry) }
{
    match (newer, older) {
        (Some(new), Some(old)) => {
            if old.key.user.as_slice().cmp(new.key.user.as_slice()).is_lt() {
                Some(old)
            } else {
                Some(new)
            }
        }
        (Some(new), None) => Some(new),
        (None, old) => old,
    }
}

/// Of the memories: that of the least user key, and of one user key that of the newest memory. It takes no memory.
pub(crate) fn first_in_memories<'a>(
    memories: Memories<'a>,
    from: &InternalKey,
    bound: &Bound,
    seq: u64,
) -> Option<&'a Entry>
    requires { IsStartOf bound.now from.now }
    ensures { option_copied result ≡ first_in bound.now seq (memories_of (option_copied memories.entry.waiting) memories.entry.in_use.now) }
{
    let newer = first_in_memory(memories.in_use, from, bound, seq);
    match memories.waiting {
        Some(waiting) => nearer(newer, first_in_memory(waiting, from, bound, seq)),
        None => newer,
    }
}

/// Of the tables that are merged.
///
/// Errors: `Disk`, only where the disk failed in this call; `OutOfMemory`.
pub(crate) fn first_in_tables<S: Site>(
    merged: &mut Merged<TableRun>,
    site: &mut S,
    from: &InternalKey,
    bound: &Bound,
    seq: u64,
) -> Result<Option<Entry>, RunErr>
    requires { IsStartOf bound.now from.now }
    ensures told { S.shows → (lists : List (List Entry)) → IsOver (folder_of (S.disk site.old)) lists merged.old → IfOk result (λ found. found ≡ first_told bound.now seq (merged_of lists)) }
    ensures proper { IfOk result (λ found. IfSome found IsProper) }
    ensures over { S.shows → (lists : List (List Entry)) → IsOver (folder_of (S.disk site.old)) lists merged.old → IsOver (folder_of (S.disk site.old)) lists merged.new }
    ensures corrupt { S.shows → (lists : List (List Entry)) → IsOver (folder_of (S.disk site.old)) lists merged.old → (name : Name) (place : ℕ) → result ≡ Err (Corrupt name place) → ⊥ }
    ensures disk { IsErrOf result RunErr.Disk → Rose (S.disk_faults site.old) (S.disk_faults site.new) }
    // The site is read, and nothing else.
    ensures quiet { OnlyReads S.Site site.old site.new }
{
    merged.seek(site, from)?;
    'entries: for _entry in 0..u64::MAX {
        match merged.next(site)? {
            Some(entry) => {
                if bound.tells(&entry, seq) {
                    return Ok(Some(entry));
                }
            }
            None => return Ok(None),
        }
    }
    // There are not so many entries.
    Err(RunErr::OutOfMemory)
}
