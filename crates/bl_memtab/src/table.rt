//! The memory table.

ghost use Rattle.std.specs.Prelude.{◌≡◌, ◌+◌, ◌^◌, ◌≤◌, [], length, sum_by, MatchOption, OnOk, OnErr};
ghost use Rattle.std.specs.List.{AllByRecursion};
ghost use Rattle.std.specs.Option.{option_copied};
ghost use Rattle.bl_entry.specs.Entries.{IsAscending};
ghost use Rattle.bl_entry.specs.Keys.{IsKey};
ghost use Rattle.bl_entry.specs.Latest.{latest};
ghost use Rattle.bl_memtab.specs.Tables.{IsFree, with_entry, after, size};

use crate::rows::Rows;
use bl_entry::{Entry, EntryErr, InternalKey, keys_are_read};
use std::alloc::Global;
use std::marker::Model;

// The bytes of an entry besides its user key and its value.
const NUMBER_BYTES: u64 = 8;

/// The entries that were inserted. Contracts see the list of them, in key order: user keys ascend, and of
/// one user key the later sequence stands first.
#[derive(Drop)]
pub struct MemTable {
    rows: Rows,
    count: u64,
    bytes: u64,
}

impl Model for MemTable {
    ghost use Rattle.std.specs.Prelude.{List};
    ghost use Rattle.bl_entry.specs.declared.key.Entry.{Entry};

    ghost Value = { List Entry };

    ghost use Rattle.bl_memtab.specs.Tables.{IsTable};

    ghost view = { λ t. t.rows };

    ghost invariant = { λ t. IsTable t.rows t.count t.bytes };
}

impl MemTable {
    /// A table of no entry. It takes no memory.
    pub fn start(alloc: Global) -> MemTable
        ensures { result ≡ [] }
    {
        MemTable {
            rows: Rows::start(alloc),
            count: 0,
            bytes: 0,
        }
    }

    /// The entry takes its place in key order. No entry of the table has its key.
    ///
    /// Errors: `OutOfMemory` alone, also where `bytes` would pass 2^64 - 1; the table is as it was.
    pub fn insert(&mut self, entry: Entry) -> Result<(), EntryErr>
        requires { IsFree entry.key self.old }
        ensures ok { OnOk result (self.new ≡ with_entry entry self.old) }
        ensures err { OnErr result (self.new ≡ self.old) }
    {
        let Some(count) = self.count.checked_add(1) else {
            return Err(EntryErr::OutOfMemory);
        };
        let Some(bytes) = with_size(self.bytes, &entry) else {
            return Err(EntryErr::OutOfMemory);
        };
        keys_are_read();
        self.rows.show_order();
        self.rows.insert(entry)?;
        self.count = count;
        self.bytes = bytes;
        Ok(())
    }

    /// The entry of this user key of greatest sequence up to `seq`, and of two such the first in key order;
    /// None where there is none. It takes no memory.
    pub fn latest(&self, key: &[u8], seq: u64) -> Option<&Entry>
        ensures { option_copied result ≡ latest key.now seq self.now }
    {
        self.rows.latest(key, seq)
    }

    /// The first entry whose key is `from` or stands behind it or, where `strict`, only behind it; None
    /// where there is none. It takes no memory.
    pub fn after(&self, from: &InternalKey, strict: bool) -> Option<&Entry>
        ensures { option_copied result ≡ after from.now strict self.now }
    {
        self.rows.after(from, strict)
    }

    /// The bytes of all user keys and values, and 8 for each entry. It takes no memory.
    pub fn bytes(&self) -> u64
        ensures { result ≡ sum_by size self.now }
    {
        self.bytes
    }

    /// How many entries there are. It takes no memory.
    pub fn count(&self) -> u64
        ensures { result ≡ length self.now }
    {
        self.count
    }

    // The keys are keys, and ascend.
    pub(crate) fn show_order(&self)
        ensures ascending { IsAscending self.now }
        ensures keys { AllByRecursion (λ e. IsKey e.key) self.now }
    {
        self.rows.show_order();
    }
}

// So many bytes and those of an entry; None where that is 2^64 or more. The entry's key is one.
fn with_size(bytes: u64, entry: &Entry) -> Option<u64>
    ensures key { IsKey entry.now.key }
    ensures total { MatchOption result (2 ^ 64 ≤ bytes + size entry.now) (λ total. total ≡ bytes + size entry.now) }
{
    let user = entry.key.user.as_slice().len() as u64;
    let value = entry.value.as_slice().len() as u64;
    bytes
        .checked_add(user)?
        .checked_add(NUMBER_BYTES)?
        .checked_add(value)
}
