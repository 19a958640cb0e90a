//! The memories beside a version.

ghost use Rattle.std.specs.Prelude.{◌≡◌};
ghost use Rattle.std.specs.Option.{option_copied};
ghost use Rattle.bl_read.specs.Giving.{memories_of};
ghost use Rattle.bl_read.specs.Reading.{latest_in};

use bl_entry::Entry;
use bl_memtab::MemTable;

/// The memories beside a version, which are newer than what stands in its tables.
#[derive(Clone, Copy)]
pub struct Memories<'a> {
    /// The one that takes what is written.
    pub in_use: &'a MemTable,
    /// The one that waits for its flush, where there is one: all its entries are older.
    pub waiting: Option<&'a MemTable>,
}

impl<'a> Memories<'a> {
    /// The latest entry of this user key up to `seq`: the memory in use is asked first. It takes no memory.
    pub(crate) fn latest(self, key: &[u8], seq: u64) -> Option<&'a Entry>
        ensures { option_copied result ≡ latest_in key.now seq (memories_of (option_copied self.entry.waiting) self.entry.in_use.now) }
    {
        match self.in_use.latest(key, seq) {
            Some(entry) => Some(entry),
            None => match self.waiting {
                Some(waiting) => waiting.latest(key, seq),
                None => None,
            },
        }
    }
}
