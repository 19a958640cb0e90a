//! Blocks of a table, read and kept.

ghost use Rattle.std.specs.Prelude.{◌≡◌, ◌+◌, ◌^◌, ◌<◌, ◌≤◌, ◌++◌, ◌∷◌, [], length, IfOk};
ghost use Rattle.bl_code.specs.Crc.{crc32c, mask_of};
ghost use Rattle.bl_table.specs.Faults.{Answers};
ghost use Rattle.bl_table.specs.Steps.{fault_of};
ghost use Rattle.bl_table.specs.Blocks.{block_at, trailer_fault as fault_of_trailer, read_block, first_from, next_after};

use crate::check::{Fault, block_fault, first_of, is_before, number_at};
use crate::entry::{BlockEntry, next_entry};
use crate::fault::{BadTable, TableErr, TableRule};
use crate::handle::Handle;
use crate::search::{restart_for_key, restart_for_place, taker_at};
use bl_code::{Crc, Octets, mask};
use std::alloc::Global;
use std::marker::Model;
use std::mem;

/// The bytes of a trailer: a type, and a checksum of four bytes.
pub(crate) const TRAILER: u64 = 5;

/// A block that was read and found good. Contracts see its entries.
#[derive(Drop)]
pub struct Block {
    offset: u64,
    bytes: Vec<u8>,
    limit: usize,
    count: usize,
}

impl Model for Block {
    ghost use Rattle.std.specs.Prelude.{◌≡◌, ◌+◌, ◌*◌, ◌<◌, ◌≤◌, ◌^◌, List, length, map, take, None};
    ghost use Rattle.bl_table.specs.declared.entry.BlockEntry.{BlockEntry};

    ghost Value = { List BlockEntry };

    ghost use Rattle.bl_table.specs.Blocks.{contents, cells_in, entry_of};

    ghost view = { λ b. map (entry_of b.offset) (cells_in (take b.limit b.bytes.items)).cells };

    ghost invariant = { λ b. (0 < b.count) × (b.limit + 4 * b.count ≤ length b.bytes.items) × (b.offset + length b.bytes.items < 2 ^ 64) × ((contents b.offset b.bytes.items b.limit b.count).fault ≡ None) };
}

/// The checksum of a block and its type, as it is stored.
pub(crate) fn sum_of(block: &[u8], kind: u8) -> u32
    ensures { result ≡ mask_of (crc32c (block.now ++ kind ∷ [])) }
{
    let mut crc = Crc::start();
    crc.extend(block);
    crc.extend(&[kind]);
    mask(crc.value())
}

// The first fault of the trailer of a block, which begins at a place.
fn trailer_fault(block: &[u8], trailer: &[u8], place: u64) -> Option<Fault>
    requires trailer { length trailer.now ≡ 5 }
    requires place { place + 5 < 2 ^ 64 }
    ensures { fault_of result ≡ fault_of_trailer place block.now trailer.now }
{
    if trailer[0] != 0 {
        return Some(Fault {
            rule: TableRule::Kind,
            place,
        });
    }
    if number_at(trailer, 1) != sum_of(block, trailer[0]) {
        return Some(Fault {
            rule: TableRule::Crc,
            place: place + 1,
        });
    }
    None
}

/// The first fault of a block with its trailer.
pub(crate) fn whole_fault(
    alloc: Global,
    bytes: &[u8],
    handle: Handle,
) -> Result<Option<Fault>, TableErr>
    ensures { IfOk result (λ f. fault_of f ≡ (block_at handle bytes.now).fault) }
{
    let size = bytes.len() as u64;
    if size < TRAILER || size - TRAILER != handle.size || handle.offset > u64::MAX - size {
        return Ok(Some(Fault {
            rule: TableRule::Length,
            place: handle.offset,
        }));
    }
    let (block, trailer) = bytes.split_at(handle.size as usize);
    let of_block = block_fault(alloc, block, handle.offset)?;
    let of_trailer = trailer_fault(block, trailer, handle.offset + handle.size);
    Ok(first_of(of_block, of_trailer))
}

impl Block {
    /// Reads a block with its trailer, of 5 bytes; places count from the beginning of the table. `Length` at
    /// the handle's offset where the bytes are not the handle's size and 5, or would reach 2^64. Else the first by
    /// its place of these, and at one place by the order of the rules: `Restart` at the count of the restarts, or at
    /// the block's beginning where it has no room for a count; `Entry` or `Order` at the first entry that is at
    /// fault; `Restart` at the first restart that is; `Kind` at the type; `Crc` at the checksum. `OutOfMemory` where
    /// memory runs out.
    pub fn parse(alloc: Global, bytes: &[u8], handle: Handle) -> Result<Block, BadTable>
        ensures { Answers result (read_block bytes.now handle) }
    {
        if let Some(fault) = whole_fault(alloc, bytes, handle)? {
            return Err(BadTable::At(fault.rule, fault.place));
        }
        let block = &bytes[..handle.size as usize];
        let at = block.len() - 4;
        let count = number_at(block, at) as usize;
        Ok(Block {
            offset: handle.offset,
            bytes: Vec::from_slice(alloc, block)?,
            limit: at - 4 * count,
            count,
        })
    }

    /// The first entry at or behind a key of at least 9 bytes; None where there is none. It is reached by a
    /// search among the restarts, and a walk from one. `OutOfMemory` where memory runs out.
    pub fn first(&self, alloc: Global, from: &[u8]) -> Result<Option<BlockEntry>, TableErr>
        requires { 9 ≤ length from.now }
        ensures { IfOk result (λ e. e ≡ first_from from.now self.now) }
    {
        let place = restart_for_key(&self.bytes, self.limit, self.count, from);
        let mut taker = taker_at(&self.bytes[..self.limit], place);
        let mut before = Vec::new(alloc);
        let mut key = Vec::new(alloc);
        'entries: while taker.left() > 0 {
            let Some(entry) = next_entry(&mut taker, &before, &mut key)? else {
                return Ok(None);
            };
            if !is_before(&key, from) {
                return Ok(Some(BlockEntry {
                    place: self.offset + entry.place,
                    value: Octets::from_slice(alloc, entry.value)?,
                    key: Octets::from_vec(key),
                }));
            }
            mem::swap(&mut before, &mut key);
        }
        Ok(None)
    }

    /// The entry that follows the one at a place of the table; None where none follows, or none stands there.
    /// It is reached by a search among the restarts, and a walk from one. `OutOfMemory` where memory runs out.
    pub fn after(&self, alloc: Global, place: u64) -> Result<Option<BlockEntry>, TableErr>
        ensures { IfOk result (λ e. e ≡ next_after place self.now) }
    {
        if place < self.offset {
            return Ok(None);
        }
        let at = place - self.offset;
        let start = restart_for_place(&self.bytes, self.limit, self.count, at);
        let mut taker = taker_at(&self.bytes[..self.limit], start);
        let mut before = Vec::new(alloc);
        let mut key = Vec::new(alloc);
        let mut passed = false;
        'entries: while taker.left() > 0 {
            let Some(entry) = next_entry(&mut taker, &before, &mut key)? else {
                return Ok(None);
            };
            if passed {
                return Ok(Some(BlockEntry {
                    place: self.offset + entry.place,
                    value: Octets::from_slice(alloc, entry.value)?,
                    key: Octets::from_vec(key),
                }));
            }
            passed = self.offset + entry.place == place;
            mem::swap(&mut before, &mut key);
        }
        Ok(None)
    }
}
