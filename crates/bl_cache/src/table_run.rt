//! A table as a run of its entries.

ghost use Rattle.std.specs.Prelude.{◌≡◌, ◌≤◌, ℕ, length, IfOk, IsErrOf, IsTrue, Ok, Err};
ghost use Rattle.std.specs.List.{AllByRecursion};
ghost use Rattle.bl_site.specs.Causes.{Rose};
ghost use Rattle.bl_site.specs.Disk.{Name, folder_of};
ghost use Rattle.bl_site.specs.Quiet.{OnlyReads};
ghost use Rattle.bl_names.specs.Names.{IsNumber, name_of};
ghost use Rattle.bl_names.specs.declared.name.FileName.TheVariants.{Table};
ghost use Rattle.bl_entry.specs.Entries.{IsAscending, IsProper, first_at};
ghost use Rattle.bl_entry.specs.declared.run.RunErr.TheVariants.{Corrupt};
ghost use Rattle.bl_cache.specs.declared.fault.Unread.TheVariants.{Damaged};
ghost use Rattle.bl_cache.specs.Reading.{read_run};
ghost use Rattle.bl_cache.specs.Runs.{IsAtStart, IsOutside, Keeps, Reads, entries_in, is_run, place_in};
ghost use Rattle.bl_cache.specs.RunLaws.{agree, ascending, keys, within};

use crate::entries::table_entries;
use crate::fault::{Unread, told};
use crate::part::read_whole;
use bl_code::{CodeErr, Octets};
use bl_entry::{Entry, InternalKey, Run, RunErr};
use bl_names::{FileName, print_name};
use bl_site::Site;
use std::alloc::Global;
use std::marker::Model;

/// A table as a run of its entries. It reads the table once, and keeps its entries.
#[derive(Drop)]
pub struct TableRun {
    alloc: Global,
    number: u64,
    size: u64,
    entries: Vec<Entry>,
    place: usize,
}

impl Model for TableRun {
    ghost use Rattle.bl_cache.specs.Runs.{IsTableView, TableView};

    ghost Value = { TableView };

    ghost view = { λ t. record { number = t.number; size = t.size; kept = t.entries.items; place = t.place } };

    ghost invariant = { λ t. IsTableView (record { number = t.number; size = t.size; kept = t.entries.items; place = t.place }) };
}

// The same entry once more, to be given away.
fn copy_of(alloc: Global, entry: &Entry) -> Result<Entry, CodeErr>
    ensures { IfOk result (λ copy. copy ≡ entry.now) }
{
    let key = InternalKey {
        user: Octets::from_slice(alloc, entry.key.user.as_slice())?,
        seq: entry.key.seq,
        kind: entry.key.kind,
    };
    let value = Octets::from_slice(alloc, entry.value.as_slice())?;
    Ok(Entry { key, value })
}

// How many entries stand before a key.
fn place_of(entries: &[Entry], from: &InternalKey) -> usize
    requires { IsAscending entries.now }
    ensures place { result ≡ first_at from.now entries.now }
    ensures within { result ≤ length entries.now }
{
    entries.partition_point(|entry| entry.key.cmp(from).is_lt())
}

// The entries of the table file of this name, which is to have this size.
fn read<S: Site>(alloc: Global, site: &mut S, name: &str, size: u64) -> Result<Vec<Entry>, Unread>
    ensures given { S.shows → IfOk result (λ es. read_run size (folder_of (S.disk site.old) name.now) ≡ Ok es.items) }
    ensures fault { S.shows → (place : ℕ) → result ≡ Err (Damaged place) → read_run size (folder_of (S.disk site.old) name.now) ≡ Err place }
    ensures run { IfOk result (λ es. IsTrue (is_run es.items)) }
    ensures proper { IfOk result (λ es. AllByRecursion IsProper es.items) }
    ensures quiet { OnlyReads S.Site site.old site.new }
    ensures disk { IsErrOf result Unread.Disk → Rose (S.disk_faults site.old) (S.disk_faults site.new) }
{
    let bytes = read_whole(alloc, site, name, size)?;
    table_entries(alloc, &bytes)
}

impl TableRun {
    /// The table of this number, which has this size, as a run that stands at its first entry. The table is read whole, once.
    ///
    /// Errors: `Corrupt` with the table's name, exactly where it is no such table: where it is absent or has another size, at 0;
    /// else at the fault that `read_table` answers or, where there is none, at the first entry that is out of bounds; `Disk`,
    /// only where the disk failed in this call; `OutOfMemory`.
    pub fn open<S: Site>(
        alloc: Global,
        site: &mut S,
        number: u64,
        size: u64,
    ) -> Result<TableRun, RunErr>
        requires { IsNumber number }
        ensures table { IfOk result (λ t. IsAtStart number size t) }
        ensures keeps { S.shows → IfOk result (λ t. Keeps t (folder_of (S.disk site.old))) }
        ensures corrupt { S.shows → (name : Name) (place : ℕ) → result ≡ Err (Corrupt name place)
            → (name ≡ name_of (Table number)) × (read_run size (folder_of (S.disk site.old) (name_of (Table number))) ≡ Err place) }
        // The site is read, and nothing else.
        ensures quiet { OnlyReads S.Site site.old site.new }
        ensures disk { IsErrOf result RunErr.Disk → Rose (S.disk_faults site.old) (S.disk_faults site.new) }
    {
        let Ok(name) = print_name(alloc, &FileName::Table(number)) else {
            return Err(RunErr::OutOfMemory);
        };
        match read(alloc, site, name.as_str(), size) {
            Ok(entries) => Ok(TableRun {
                alloc,
                number,
                size,
                entries,
                place: 0,
            }),
            Err(unread) => Err(told(alloc, name.as_str(), unread)),
        }
    }
}

impl Run for TableRun {
    ghost entries = { entries_in };

    ghost place = { place_in };

    ghost reads = { Reads };

    ghost keeps = { Keeps };

    ghost is_outside = { IsOutside };

    ghost admits = { IsProper };

    ghost ascending = { ascending };

    ghost keys = { keys };

    ghost within = { within };

    ghost agree = { agree };

    fn seek<S: Site>(&mut self, _site: &mut S, from: &InternalKey) -> Result<(), RunErr> {
        self.place = place_of(&self.entries, from);
        Ok(())
    }

    fn next<S: Site>(&mut self, _site: &mut S) -> Result<Option<Entry>, RunErr> {
        let Some(entry) = self.entries.get(self.place) else {
            return Ok(None);
        };
        let Ok(entry) = copy_of(self.alloc, entry) else {
            return Err(RunErr::OutOfMemory);
        };
        self.place += 1;
        Ok(Some(entry))
    }
}
