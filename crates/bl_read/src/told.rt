//! What is told of a key.

ghost use Rattle.std.specs.Prelude.{◌≡◌, ℕ, IfOk, IfErr, IfSome, IsErrOf, IsSomeAnd, Err, Some};
ghost use Rattle.std.specs.Option.{option_copied};
ghost use Rattle.bl_site.specs.Causes.{Rose};
ghost use Rattle.bl_site.specs.Disk.{Name, folder_of};
ghost use Rattle.bl_site.specs.Quiet.{OnlyReads};
ghost use Rattle.bl_build.specs.Listing.{Listing};
ghost use Rattle.bl_entry.specs.declared.run.RunErr.TheVariants.{Corrupt};
ghost use Rattle.bl_entry.specs.Entries.{IsProper};
ghost use Rattle.bl_entry.specs.Latest.{revision_of};
ghost use Rattle.bl_entry.specs.Revisions.{Map};
ghost use Rattle.bl_read.specs.Giving.{Gives, memories_of};
ghost use Rattle.bl_read.specs.Reading.{IsDamaged, IsPut, LacksValue};
ghost use Rattle.bl_read.specs.Scanning.{IsNextTold, IsScan, IsToldFirst, before_table as before_table_of, is_first as is_first_of};

use crate::bound::Bound;
use crate::first::{first_in_memories, first_in_tables};
use crate::memories::Memories;
use crate::put::{copied, put_in_memory, put_in_table};
use bl_cache::{Files, TableRun, named_are_read, runs_are_tables};
use bl_code::Octets;
use bl_entry::{Entry, RunErr, later_are_told_first, latest_is_the_value};
use bl_merge::{Merged, latest_tells_the_value, merged_lists_are_in_order};
use bl_out::order_does_not_matter;
use bl_site::Site;
use bl_table::tables_are_read_block_by_block;
use std::alloc::Global;

/// A key, and what is told of it.
#[derive(Drop)]
pub(crate) struct Told {
    /// The user key.
    pub(crate) key: Octets,
    /// Its value; None where it has none.
    pub(crate) put: Option<Octets>,
}

// A copy of the user key of an entry.
fn key_of(alloc: Global, entry: &Entry) -> Result<Octets, RunErr>
    ensures key { IfOk result (λ key. key ≡ entry.now.key.user) }
    ensures memory { IfErr result (λ e. e ≡ RunErr.OutOfMemory) }
{
    copied(alloc, entry.key.user.as_slice())
}

// What an entry of a memory tells.
fn told_by_memory(alloc: Global, entry: &Entry) -> Result<Told, RunErr>
    ensures told { IfOk result (λ told. told ≡ record { key = entry.now.key.user; put = (revision_of entry.now).put }) }
    ensures memory { IfErr result (λ e. e ≡ RunErr.OutOfMemory) }
{
    let key = key_of(alloc, entry)?;
    let put = put_in_memory(alloc, entry)?;
    Ok(Told { key, put })
}

// What an entry of a table tells.
fn told_by_table<S: Site>(
    alloc: Global,
    site: &mut S,
    files: &mut Files,
    entry: Entry,
) -> Result<Told, RunErr>
    requires { IsProper entry }
    ensures key { IfOk result (λ told. told.key ≡ entry.key.user) }
    ensures put { S.shows → IfOk result (λ told. IsPut (folder_of (S.disk site.old)) (Some entry) told.put) }
    ensures corrupt { S.shows → (name : Name) (place : ℕ) → result ≡ Err (Corrupt name place) → LacksValue (folder_of (S.disk site.old)) entry name }
    ensures disk { IsErrOf result RunErr.Disk → Rose (S.disk_faults site.old) (S.disk_faults site.new) }
    // The site is read, and nothing else.
    ensures quiet { OnlyReads S.Site site.old site.new }
{
    let key = key_of(alloc, &entry)?;
    match put_in_table(alloc, site, files, entry) {
        Ok(put) => Ok(Told { key, put }),
        Err(why) => Err(why),
    }
}

// Whether a memory tells first: its user key is not behind that of the table's entry.
fn is_first(memory: &Entry, table: &Option<Entry>) -> bool
    ensures { result ≡ is_first_of memory.now table.now }
{
    match table {
        Some(entry) => {
            let order = entry.key.user.as_slice().cmp(memory.key.user.as_slice());
            !order.is_lt()
        }
        None => true,
    }
}

// The entry of a memory, where it tells before that of a table.
fn before_table<'a>(memory: Option<&'a Entry>, table: &Option<Entry>) -> Option<&'a Entry>
    ensures { option_copied result ≡ before_table_of (option_copied memory.entry) table.now }
{
    match memory {
        Some(entry) if is_first(entry, table) => Some(entry),
        _ => None,
    }
}

// What is told by the entry that tells first, where there is one.
fn told_by_first<S: Site>(
    alloc: Global,
    site: &mut S,
    files: &mut Files,
    memory: Option<&Entry>,
    table: Option<Entry>,
) -> Result<Option<Told>, RunErr>
    requires { IfSome table IsProper }
    ensures told { S.shows → IfOk result (IsToldFirst (folder_of (S.disk site.old)) (option_copied memory.entry) table) }
    ensures corrupt { S.shows → (name : Name) (place : ℕ) → result ≡ Err (Corrupt name place) → IsSomeAnd table (λ e. LacksValue (folder_of (S.disk site.old)) e name) }
    ensures disk { IsErrOf result RunErr.Disk → Rose (S.disk_faults site.old) (S.disk_faults site.new) }
    // The site is read, and nothing else.
    ensures quiet { OnlyReads S.Site site.old site.new }
{
    match before_table(memory, &table) {
        Some(entry) => match told_by_memory(alloc, entry) {
            Ok(told) => Ok(Some(told)),
            Err(error) => Err(error),
        },
        None => match table {
            Some(entry) => match told_by_table(alloc, site, files, entry) {
                Ok(told) => Ok(Some(told)),
                Err(error) => Err(error),
            },
            None => Ok(None),
        },
    }
}

/// What is told of the first key from the bound on that has an entry up to the sequence, in the memories or in the tables
/// that are merged; None where no key has one.
///
/// Errors: `Corrupt`, only with a blob file that lacks a value that a table names; `Disk`, only where the disk failed in
/// this call; `OutOfMemory`.
pub(crate) fn told_next<S: Site>(
    alloc: Global,
    site: &mut S,
    files: &mut Files,
    merged: &mut Merged<TableRun>,
    memories: Memories,
    bound: &Bound,
    seq: u64,
) -> Result<Option<Told>, RunErr>
    ensures told { S.shows → (version : Listing) → IsScan (folder_of (S.disk site.old)) version merged.old → (m : Map)
        → Gives (folder_of (S.disk site.old)) (record { version = version; memories = memories_of (option_copied memories.entry.waiting) memories.entry.in_use.now }) seq m → IfOk result (IsNextTold m bound.now) }
    ensures scan { S.shows → (version : Listing) → IsScan (folder_of (S.disk site.old)) version merged.old → IsScan (folder_of (S.disk site.old)) version merged.new }
    ensures corrupt { S.shows → (version : Listing) → IsScan (folder_of (S.disk site.old)) version merged.old → (name : Name) (place : ℕ) → result ≡ Err (Corrupt name place) → IsDamaged (folder_of (S.disk site.old)) version name }
    ensures disk { IsErrOf result RunErr.Disk → Rose (S.disk_faults site.old) (S.disk_faults site.new) }
    // The site is read, and nothing else.
    ensures quiet { OnlyReads S.Site site.old site.new }
{
    later_are_told_first();
    latest_is_the_value();
    merged_lists_are_in_order();
    latest_tells_the_value();
    order_does_not_matter();
    runs_are_tables();
    named_are_read();
    tables_are_read_block_by_block();
    let from = bound.start(alloc)?;
    let table = first_in_tables(merged, site, &from, bound, seq)?;
    let memory = first_in_memories(memories, &from, bound, seq);
    told_by_first(alloc, site, files, memory, table)
}
