//! Writing a table.

ghost use Rattle.std.specs.Prelude.{◌≡◌, ℕ, ◌+◌, ◌-◌, ◌%◌, ◌^◌, ◌<◌, ◌≤◌, ◌++◌, List, [], ◌∷◌, length, replicate, IfOk, OnOk, OnErr};
ghost use Rattle.bl_table.specs.Spelling.{Item, handle, footer, with_trailer, closing, entries_from, table};
ghost use Rattle.bl_table.specs.Building.{HasAdded, item, written, block_of};
ghost use Rattle.bl_table.specs.Marks.{Marks};

use crate::block::TRAILER;
use crate::fault::TableErr;
use crate::mark::Mark;
use crate::spell::{put_restarts, put_trailer};
use crate::writer::BlockWriter;
use bl_code::{Octets, put_fixed64, put_varint64};
use std::alloc::Global;
use std::marker::Model;

/// A data block is complete once it has so many bytes.
const COMPLETE: usize = 4096;

/// The bytes of a footer before its magic number.
pub(crate) const HANDLES: usize = 40;

/// The number that ends a footer.
pub(crate) const MAGIC: u64 = 0xDB47_7524_8B80_FB57;

// The handle of a block follows.
fn put_handle(out: &mut Vec<u8>, offset: u64, size: u64) -> Result<(), TableErr>
    ensures { OnOk result (out.new.items ≡ out.old.items ++ handle offset size) }
{
    put_varint64(out, offset)?;
    put_varint64(out, size)?;
    Ok(())
}

// So many zeros follow.
fn put_zeros(out: &mut Vec<u8>, count: usize) -> Result<(), TableErr>
    ensures { OnOk result (out.new.items ≡ out.old.items ++ replicate count 0) }
{
    for _ in 0..count {
        out.push(0)?;
    }
    Ok(())
}

// The footer follows.
fn put_footer(out: &mut Vec<u8>, meta: u64, index: u64, size: u64) -> Result<(), TableErr>
    ensures { OnOk result (out.new.items ≡ out.old.items ++ footer meta index size) }
{
    let before = out.len();
    put_handle(out, meta, 8)?;
    put_handle(out, index, size)?;
    let handles = out.len() - before;
    put_zeros(out, HANDLES.saturating_sub(handles))?;
    put_fixed64(out, MAGIC)?;
    Ok(())
}

// A data block that begins at an offset, with its trailer. The index gets an entry for it.
fn close_block(
    alloc: Global,
    block: &BlockWriter,
    index: &mut BlockWriter,
    offset: u64,
    key: &[u8],
) -> Result<(Vec<u8>, Mark), TableErr>
    requires { length key.now < 2 ^ 32 }
    ensures bytes { IfOk result (λ r. r.0.items ≡ with_trailer (block_of block.now)) }
    ensures index { IfOk result (λ r. (index.new ≡ written index.old (item key.now (handle offset (length (block_of block.now))))) × Marks r.1 index.old) }
    ensures err { OnErr result (index.new ≡ index.old) }
{
    let mut bytes = Vec::with_capacity(alloc, block.size().saturating_add(TRAILER as usize))?;
    block.put_block(&mut bytes)?;
    let size = bytes.len() as u64;
    put_trailer(&mut bytes, 0)?;
    let mut value = Vec::new(alloc);
    put_handle(&mut value, offset, size)?;
    let mark = index.add(alloc, key, &value)?;
    Ok((bytes, mark))
}

// What follows the data blocks: an empty metaindex block, the index block and the footer.
fn put_closing(out: &mut Vec<u8>, index: &BlockWriter, at: u64) -> Result<(), TableErr>
    ensures { OnOk result (out.new.items ≡ out.old.items ++ closing at (block_of index.now)) }
{
    let meta = out.len();
    put_restarts(out, &[0])?;
    put_trailer(out, meta)?;
    let from = out.len();
    index.put_block(out)?;
    let size = (out.len() - from) as u64;
    put_trailer(out, from)?;
    put_footer(out, at, at.wrapping_add(13), size)
}

/// Writes a table from ascending keys: data blocks as they are complete, and then the rest. Reading the
/// table back needs keys of at least 9 bytes that ascend. Offsets count modulo 2^64.
#[derive(Drop)]
pub struct TableBuilder {
    alloc: Global,
    block: BlockWriter,
    index: BlockWriter,
    offset: u64,
}

impl Model for TableBuilder {
    ghost use Rattle.bl_table.specs.Building.{Building};

    ghost Value = { Building };

    ghost view = { λ b. record { block = b.block; index = b.index; offset = b.offset } };
}

impl TableBuilder {
    /// No entry is added.
    pub fn start(alloc: Global) -> TableBuilder
        ensures { HasAdded [] [] result }
    {
        TableBuilder {
            alloc,
            block: BlockWriter::start(alloc),
            index: BlockWriter::start(alloc),
            offset: 0,
        }
    }

    /// Adds an entry. The bytes that are given follow those given before: none until a block is complete.
    /// Key and value have together fewer than 2^31 bytes. `OutOfMemory` where memory runs out; then the builder
    /// is as it was.
    pub fn add(&mut self, key: &[u8], value: &[u8]) -> Result<Octets, TableErr>
        requires { length key.now + length value.now < 2 ^ 31 }
        ensures added { IfOk result (λ bytes. (items : List Item) (given : List ℕ) → HasAdded items given self.old → HasAdded (items ++ item key.now value.now ∷ []) (given ++ bytes) self.new) }
        ensures err { OnErr result (self.new ≡ self.old) }
    {
        let mark = self.block.add(self.alloc, key, value)?;
        if self.block.size() < COMPLETE {
            return Ok(Octets::from_vec(Vec::new(self.alloc)));
        }
        match close_block(self.alloc, &self.block, &mut self.index, self.offset, key) {
            Ok((bytes, _)) => {
                self.offset = self.offset.wrapping_add(bytes.len() as u64);
                self.block.clear();
                Ok(Octets::from_vec(bytes))
            }
            Err(error) => {
                self.block.undo(mark);
                Err(error)
            }
        }
    }

    /// How many bytes the complete blocks with their trailers have, and the entries of the block in hand,
    /// modulo 2^64.
    pub fn size(&self) -> u64
        ensures { (items : List Item) (given : List ℕ) (added : HasAdded items given self.now) → result ≡ (length given + length (entries_from 0 0 [] added.hand)) % 2 ^ 64 }
    {
        self.offset.wrapping_add(self.block.len() as u64)
    }

    /// The rest of the table: the block in hand, the metaindex and index blocks and the footer. `OutOfMemory`
    /// where memory runs out. Whatever is answered, the builder is as it was.
    pub fn finish(&mut self) -> Result<Octets, TableErr>
        ensures table { IfOk result (λ rest. (items : List Item) (given : List ℕ) → HasAdded items given self.old → given ++ rest ≡ table items) }
        ensures same { self.new ≡ self.old }
    {
        if self.block.is_empty() {
            let mut bytes = Vec::new(self.alloc);
            put_closing(&mut bytes, &self.index, self.offset)?;
            return Ok(Octets::from_vec(bytes));
        }
        let (mut bytes, mark) = close_block(
            self.alloc,
            &self.block,
            &mut self.index,
            self.offset,
            self.block.last(),
        )?;
        let at = self.offset.wrapping_add(bytes.len() as u64);
        let closed = put_closing(&mut bytes, &self.index, at);
        self.index.undo(mark);
        closed?;
        Ok(Octets::from_vec(bytes))
    }
}
