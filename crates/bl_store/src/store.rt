//! The store.

ghost use Rattle.std.specs.Prelude.{◌≡◌, ◌≤◌, ◌^◌};

use bl_build::{Standing, Version};
use bl_manifest::Manifest;
use bl_memtab::MemTable;
use bl_out::Numbers;
use bl_wal::Wal;
use std::marker::Model;

// A memory that waits to be flushed.
#[derive(Drop)]
pub(crate) struct Waiting {
    pub memory: MemTable,
    // The last sequence as it was switched, and the number of the log that was made then.
    pub last: u64,
    pub log: u64,
}

/// An ordered map from keys to values, on the files of a folder. A contract sees the version and what the manifest says beside it, the
/// manifest, the log in use, the next number for a file, the last sequence, the memories, and whether a writing call has failed.
#[derive(Drop)]
pub struct Store {
    pub(crate) version: Version,
    pub(crate) standing: Standing,
    pub(crate) manifest: Manifest,
    pub(crate) wal: Wal,
    pub(crate) numbers: Numbers,
    pub(crate) last: u64,
    pub(crate) memory: MemTable,
    pub(crate) waiting: Option<Waiting>,
    pub(crate) broken: bool,
}

impl Model for Store {
    ghost use Rattle.bl_store.specs.Stored.{IsInOrder, Stored};

    ghost Value = { Stored };

    ghost view = { λ s. record {
      version = s.version;
      standing = s.standing;
      manifest = s.manifest;
      log = s.wal;
      next = s.numbers;
      last = s.last;
      memory = s.memory;
      waiting = s.waiting;
      broken = s.broken;
    } };

    ghost invariant = { λ s. IsInOrder (record {
      version = s.version;
      standing = s.standing;
      manifest = s.manifest;
      log = s.wal;
      next = s.numbers;
      last = s.last;
      memory = s.memory;
      waiting = s.waiting;
      broken = s.broken;
    }) };
}

impl Store {
    /// Whether a writing call has failed: it answered `Disk`, or `OutOfMemory` once the folder was asked for a change. Calls that read
    /// go on, by the map that the store held; it is to be opened again.
    pub fn is_broken(&self) -> bool
        ensures { result ≡ self.now.broken }
    {
        self.broken
    }

    // The next number is one that a file may have, or the one behind.
    pub(crate) fn show_next(&self)
        ensures { self.now.next ≤ 10 ^ 15 }
    {
        let _next = self.numbers.next();
    }
}
