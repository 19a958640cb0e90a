//! A block in the making.

ghost use Rattle.std.specs.Prelude.{◌≡◌, ◌+◌, ◌*◌, ◌^◌, ◌<◌, ◌≤◌, ◌++◌, ◌↔◌, [], length, IsTrue, IfOk, OnOk, OnErr};
ghost use Rattle.bl_table.specs.Spelling.{is_restart, shared_at, or_zero};
ghost use Rattle.bl_table.specs.Building.{nothing, item, written, block_of};
ghost use Rattle.bl_table.specs.Marks.{Marks, undone};

use crate::fault::TableErr;
use crate::mark::Mark;
use crate::spell::{append_entry, common_prefix, put_restarts};
use std::alloc::Global;
use std::marker::Model;
use std::mem;

/// The entries between two restarts.
const INTERVAL: u8 = 16;

/// Writes the entries of a block. Contracts see what stands in it so far.
#[derive(Drop)]
pub(crate) struct BlockWriter {
    bytes: Vec<u8>,
    restarts: Vec<u32>,
    count: u8,
    last: Vec<u8>,
}

impl Model for BlockWriter {
    ghost use Rattle.std.specs.Prelude.{◌*◌, ◌<◌, ◌≤◌, ◌^◌, length};
    ghost use Rattle.bl_table.specs.Building.{Writing};

    ghost Value = { Writing };

    ghost view = { λ w. record { bytes = w.bytes.items; restarts = w.restarts.items; count = w.count; last = w.last.items } };

    ghost invariant = { λ w. (w.count < 16) × (3 * length w.restarts.items ≤ length w.bytes.items) × (length w.restarts.items < 2 ^ 32) × (length w.last.items < 2 ^ 32) };
}

// How the entry that comes next is written: whether it is a restart, and the bytes that it shares.
fn plan(count: u8, at: usize, last: &[u8], key: &[u8]) -> (bool, usize)
    requires { count < 16 }
    ensures restart { result.0 ≡ is_restart count at }
    ensures shared { result.1 ≡ shared_at count at last.now key.now }
    ensures within { result.1 ≤ length key.now }
{
    if count == 0 && at < 1 << 32 {
        (true, 0)
    } else {
        (false, common_prefix(last, key))
    }
}

impl BlockWriter {
    /// Nothing stands in the block.
    pub fn start(alloc: Global) -> BlockWriter
        ensures { result ≡ nothing }
    {
        BlockWriter {
            bytes: Vec::new(alloc),
            restarts: Vec::new(alloc),
            count: 0,
            last: Vec::new(alloc),
        }
    }

    /// An entry follows. The mark that is given takes it back.
    pub fn add(&mut self, alloc: Global, key: &[u8], value: &[u8]) -> Result<Mark, TableErr>
        requires key { length key.now < 2 ^ 32 }
        requires value { length value.now < 2 ^ 32 }
        ensures ok { IfOk result (λ mark. (self.new ≡ written self.old (item key.now value.now)) × Marks mark self.old) }
        ensures err { OnErr result (self.new ≡ self.old) }
    {
        let at = self.bytes.len();
        let restarts = self.restarts.len();
        let (restart, shared) = plan(self.count, at, &self.last, key);
        let last = Vec::from_slice(alloc, key)?;
        if restart {
            self.restarts.push(at as u32)?;
        }
        if let Err(error) = append_entry(&mut self.bytes, shared, key, value) {
            self.restarts.truncate(restarts);
            return Err(error);
        }
        let count = self.count;
        self.count = (count + 1) % INTERVAL;
        let last = mem::replace(&mut self.last, last);
        Ok(Mark {
            bytes: at,
            restarts,
            count,
            last,
        })
    }

    /// Takes back what was added since a mark.
    pub fn undo(&mut self, mark: Mark)
        requires bytes { mark.bytes ≤ length self.old.bytes }
        requires restarts { mark.restarts ≤ length self.old.restarts }
        ensures { self.new ≡ undone mark self.old }
    {
        self.bytes.truncate(mark.bytes);
        self.restarts.truncate(mark.restarts);
        self.count = mark.count;
        self.last = mark.last;
    }

    /// Whether no entry stands in the block.
    pub fn is_empty(&self) -> bool
        ensures { IsTrue result ↔ (self.now.bytes ≡ []) }
    {
        self.bytes.is_empty()
    }

    /// The key of the last entry.
    pub fn last(&self) -> &[u8]
        ensures key { result.now ≡ self.now.last }
        ensures short { length result.now < 2 ^ 32 }
    {
        self.last.as_slice()
    }

    /// The bytes of the entries.
    pub fn len(&self) -> usize
        ensures { result ≡ length self.now.bytes }
    {
        self.bytes.len()
    }

    /// The bytes of the block, which has an entry.
    pub fn size(&self) -> usize
        ensures { result ≡ length self.now.bytes + 4 * length self.now.restarts + 4 }
    {
        self.bytes.len() + 4 * self.restarts.len() + 4
    }

    /// The block follows.
    pub fn put_block(&self, out: &mut Vec<u8>) -> Result<(), TableErr>
        ensures { OnOk result (out.new.items ≡ out.old.items ++ block_of self.now) }
    {
        out.extend_from_slice(&self.bytes)?;
        if self.restarts.is_empty() {
            put_restarts(out, &[0])
        } else {
            put_restarts(out, &self.restarts)
        }
    }

    /// Empties the block.
    pub fn clear(&mut self)
        ensures { self.new ≡ nothing }
    {
        self.bytes.clear();
        self.restarts.clear();
        self.last.clear();
        self.count = 0;
    }
}
