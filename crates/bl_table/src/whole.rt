//! Reading a whole table, one block at a time.

ghost use Rattle.std.specs.Prelude.{◌≡◌, ℕ, ◌+◌, ◌-◌, ◌^◌, ◌<◌, ◌≤◌, ◌++◌, List, length, map, flat_map, take, drop, not, None, IfOk, OnOk};
ghost use Rattle.std.specs.Option.{ForSome};
ghost use Rattle.bl_table.specs.declared.fault.TableRule.TheVariants.{Order};
ghost use Rattle.bl_table.specs.Faults.{expect, ◌and◌};
ghost use Rattle.bl_table.specs.Steps.{fault_of};
ghost use Rattle.bl_table.specs.Blocks.{block_in, cells_in, entry_of};
ghost use Rattle.bl_table.specs.Whole.{Data, block_of, meta_fault as fault_in_meta, block_fault as fault_of_block, block_entries, data_handle as handle_in, data_at, data_fault, ascend as is_ascending, descend as is_descending, first_fault, last_entry, index_fault, data_of, read_table as reading};
ghost use Rattle.bl_table.specs.Wholes.{IsFound, orders, Reads};

use crate::block::whole_fault;
use crate::check::{Fault, first_of, is_before, number_at};
use crate::entry::{BlockEntry, next_entry};
use crate::fault::{BadTable, TableErr, TableRule};
use crate::footer::{FOOTER, footer_of, is_inside, take_handle};
use crate::handle::Handle;
use bl_code::{Octets, Taker};
use std::alloc::Global;
use std::mem;

// The bytes of a block's entries, none where its count of restarts is wrong; and whether the restarts leave
// no byte for an entry.
fn entries_of(block: &[u8]) -> (&[u8], bool)
    ensures cells { (offset : ℕ) → (cells_in result.0.now).cells ≡ (block_in offset block.now).cells }
    ensures bare { (offset : ℕ) → result.1 ≡ (block_in offset block.now).bare }
    ensures within { length result.0.now ≤ length block.now }
{
    if block.len() < 4 {
        return (&block[..0], false);
    }
    let at = block.len() - 4;
    let count = number_at(block, at) as usize;
    if count == 0 || 4 * count > at {
        return (&block[..0], false);
    }
    let limit = at - 4 * count;
    (&block[..limit], limit == 0)
}

// A block of a table: its first fault, whether its restarts leave no byte for an entry, and the bytes of its
// entries.
#[derive(Clone, Copy, Drop)]
pub(crate) struct Named<'a> {
    pub fault: Option<Fault>,
    pub bare: bool,
    pub entries: &'a [u8],
}

// The block of a handle, with its trailer.
fn find_block<'a>(alloc: Global, table: &'a [u8], handle: Handle) -> Result<Named<'a>, TableErr>
    requires { handle.offset + handle.size + 5 ≤ length table.now }
    ensures found { IfOk result (λ n. IsFound n (block_of table.now handle)) }
    ensures within { IfOk result (λ n. handle.offset + length n.entries.now ≤ length table.now) }
{
    let from = handle.offset as usize;
    let size = handle.size as usize;
    let bytes = &table[from..from + size + 5];
    let fault = whole_fault(alloc, bytes, handle)?;
    let (entries, bare) = entries_of(&bytes[..size]);
    Ok(Named {
        fault,
        bare,
        entries,
    })
}

// The entries of a block at an offset follow, up to the first that is none.
fn collect(
    alloc: Global,
    bytes: &[u8],
    offset: u64,
    entries: &mut Vec<BlockEntry>,
) -> Result<(), TableErr>
    requires { offset + length bytes.now < 2 ^ 64 }
    ensures { OnOk result (entries.new.items ≡ entries.old.items ++ map (entry_of offset) (cells_in bytes.now).cells) }
{
    let mut taker = Taker::over(bytes);
    let mut before = Vec::new(alloc);
    let mut key = Vec::new(alloc);
    'cells: while taker.left() > 0 {
        let Some(entry) = next_entry(&mut taker, &before, &mut key)? else {
            return Ok(());
        };
        entries.push(BlockEntry {
            place: offset + entry.place,
            key: Octets::from_slice(alloc, &key)?,
            value: Octets::from_slice(alloc, entry.value)?,
        })?;
        mem::swap(&mut before, &mut key);
    }
    Ok(())
}

// The handle that an index value is, to its end, of a block that ends before the footer of a table of so
// many bytes.
fn data_handle(value: &[u8], size: u64) -> Option<Handle>
    requires { 48 ≤ size }
    ensures { result ≡ handle_in size value.now }
{
    let mut taker = Taker::over(value);
    let handle = take_handle(&mut taker)?;
    if taker.left() == 0 && is_inside(&handle, size - FOOTER) {
        Some(handle)
    } else {
        None
    }
}

// The first fault of the data block that an index value at a place names. The block's entries follow.
fn read_data(
    alloc: Global,
    table: &[u8],
    place: u64,
    value: &[u8],
    entries: &mut Vec<BlockEntry>,
) -> Result<Option<Fault>, TableErr>
    requires { 48 ≤ length table.now }
    ensures fault { IfOk result (λ f. fault_of f ≡ fault_of_block table.now place (handle_in (length table.now) value.now)) }
    ensures entries { OnOk result (entries.new.items ≡ entries.old.items ++ block_entries table.now (handle_in (length table.now) value.now)) }
{
    let Some(handle) = data_handle(value, table.len() as u64) else {
        return Ok(Some(Fault {
            rule: TableRule::Handle,
            place,
        }));
    };
    let block = find_block(alloc, table, handle)?;
    collect(alloc, block.entries, handle.offset, entries)?;
    let bare = if block.bare {
        Some(Fault {
            rule: TableRule::Entry,
            place: handle.offset,
        })
    } else {
        None
    };
    Ok(first_of(block.fault, bare))
}

// Whether a key may stand before another: keys of fewer than eight bytes have no order.
fn ascend(a: &[u8], b: &[u8]) -> bool
    ensures { result ≡ is_ascending a.now b.now }
{
    a.len() < 8 || b.len() < 8 || is_before(a, b)
}

// Whether the second of two keys stands before the first.
fn descend(a: &[u8], b: &[u8]) -> bool
    ensures { result ≡ is_descending a.now b.now }
{
    a.len() >= 8 && b.len() >= 8 && is_before(b, a)
}

// An entry of an index.
#[derive(Clone, Copy, Drop)]
struct IndexKey<'a> {
    place: u64,
    key: &'a [u8],
}

// An order that is broken at a place.
fn unless_ordered(holds: bool, place: u64) -> Option<Fault>
    ensures { fault_of result ≡ expect holds Order place }
{
    if holds {
        None
    } else {
        Some(Fault {
            rule: TableRule::Order,
            place,
        })
    }
}

// The first fault of order at an index entry behind another one. Its data block's entries are those from a
// count on.
fn order_fault(
    entries: &[BlockEntry],
    from: usize,
    before: IndexKey,
    own: IndexKey,
) -> Option<Fault>
    requires { from ≤ length entries.now }
    ensures { fault_of result ≡ orders before.entry.place before.entry.key.now own.entry.place own.entry.key.now (take from entries.now) (drop from entries.now) }
{
    let (old, new) = entries.split_at(from);
    let (Some(first), Some(last)) = (new.first(), new.last()) else {
        return None;
    };
    let key = first.key.as_slice();
    let of_index = unless_ordered(ascend(before.key, key), before.place);
    let of_first = match old.last() {
        Some(entry) => unless_ordered(ascend(entry.key.as_slice(), key), first.place),
        None => None,
    };
    let of_own = unless_ordered(!descend(last.key.as_slice(), own.key), own.place);
    first_of(of_index, first_of(of_first, of_own))
}

// Of entries that a fault refuses the last one is kept, since the next one is to stand behind it: so a table that
// names one block many times takes no more memory than that block.
fn keep_needed(fault: Option<Fault>, entries: &mut Vec<BlockEntry>) -> Result<(), TableErr>
    ensures whole { fault_of fault ≡ None → entries.new.items ≡ entries.old.items }
    ensures last { OnOk result (last_entry None entries.new.items ≡ last_entry None entries.old.items) }
{
    if fault.is_none() {
        return Ok(());
    }
    if let Some(last) = entries.pop() {
        entries.clear();
        entries.push(last)?;
    }
    Ok(())
}

// The first fault of the data blocks that an index at an offset names, and their entries where there is none.
fn read_blocks(
    alloc: Global,
    table: &[u8],
    offset: u64,
    index: &[u8],
) -> Result<(Option<Fault>, Vec<BlockEntry>), TableErr>
    requires size { 48 ≤ length table.now }
    requires within { offset + length index.now ≤ length table.now }
    ensures fault { IfOk result (λ r. fault_of r.0 ≡ data_fault None (map (data_at table.now offset) (cells_in index.now).cells)) }
    ensures entries { IfOk result (λ r. fault_of r.0 ≡ None → r.1.items ≡ flat_map (λ (d : Data). d.entries) (map (data_at table.now offset) (cells_in index.now).cells)) }
{
    let mut taker = Taker::over(index);
    let mut before = Vec::new(alloc);
    let mut key = Vec::new(alloc);
    let mut at = 0;
    let mut fault = None;
    let mut entries = Vec::new(alloc);
    'cells: while taker.left() > 0 {
        let Some(entry) = next_entry(&mut taker, &before, &mut key)? else {
            return Ok((fault, entries));
        };
        let place = offset + entry.place;
        let from = entries.len();
        let found = read_data(alloc, table, place, entry.value, &mut entries)?;
        let first = IndexKey {
            place: at,
            key: &before,
        };
        let order = order_fault(&entries, from, first, IndexKey { place, key: &key });
        fault = first_of(fault, first_of(order, found));
        keep_needed(fault, &mut entries)?;
        at = place;
        mem::swap(&mut before, &mut key);
    }
    Ok((fault, entries))
}

// The first fault of a metaindex block, which is to have no entry.
fn meta_fault(alloc: Global, table: &[u8], meta: Option<Handle>) -> Result<Option<Fault>, TableErr>
    requires { ForSome meta (λ h. h.offset + h.size + 5 ≤ length table.now) }
    ensures { IfOk result (λ f. fault_of f ≡ fault_in_meta table.now meta) }
{
    let Some(handle) = meta else {
        return Ok(None);
    };
    let block = find_block(alloc, table, handle)?;
    let mut key = Vec::new(alloc);
    let mut taker = Taker::over(block.entries);
    let Some(entry) = next_entry(&mut taker, &[], &mut key)? else {
        return Ok(block.fault);
    };
    let entry = Fault {
        rule: TableRule::Entry,
        place: handle.offset + entry.place,
    };
    Ok(first_of(block.fault, Some(entry)))
}

// The first fault of an index block and of the blocks that it names, and their entries where there is none.
fn read_index(
    alloc: Global,
    table: &[u8],
    index: Option<Handle>,
) -> Result<(Option<Fault>, Vec<BlockEntry>), TableErr>
    requires size { 48 ≤ length table.now }
    requires within { ForSome index (λ h. h.offset + h.size + 5 ≤ length table.now) }
    ensures fault { IfOk result (λ r. fault_of r.0 ≡ (index_fault table.now index and data_fault None (data_of table.now index))) }
    ensures entries { IfOk result (λ r. fault_of r.0 ≡ None → r.1.items ≡ flat_map (λ (d : Data). d.entries) (data_of table.now index)) }
{
    let Some(handle) = index else {
        return Ok((None, Vec::new(alloc)));
    };
    let block = find_block(alloc, table, handle)?;
    let (fault, entries) = read_blocks(alloc, table, handle.offset, block.entries)?;
    Ok((first_of(block.fault, fault), entries))
}

/// The entries of a table, in the order of its index. `Length` at 0 where there are not 48 bytes for a footer.
/// Else the first fault by its place in the table, at one place by the order of the rules: those of the footer
/// as `read_footer` has them, and those of each block that it and the index name as `Block::parse` has them;
/// `Entry` at an entry of the metaindex block, and at the beginning of a data block without one; `Handle` at an
/// index entry whose value is no handle to its end, or of a block that passes the footer; `Order` at the first
/// entry of a data block that does not stand behind the last one before it, and at an index entry whose key
/// stands before its block's last key, or not before the next block's first. `OutOfMemory` where memory runs
/// out.
pub fn read_table(alloc: Global, bytes: &[u8]) -> Result<Vec<BlockEntry>, BadTable>
    ensures { Reads result (reading bytes.now) }
{
    let size = bytes.len() as u64;
    if size < FOOTER {
        return Err(BadTable::At(TableRule::Length, 0));
    }
    let footer = footer_of(&bytes[bytes.len() - 48..], size);
    let meta = meta_fault(alloc, bytes, footer.meta)?;
    let (index, entries) = read_index(alloc, bytes, footer.index)?;
    match first_of(footer.fault, first_of(meta, index)) {
        Some(fault) => Err(BadTable::At(fault.rule, fault.place)),
        None => Ok(entries),
    }
}
