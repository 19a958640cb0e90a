//! The footer of a table.

ghost use Rattle.std.specs.Prelude.{◌≡◌, ◌+◌, ◌^◌, ◌<◌, ◌≤◌, ◌==◌, length, is_some, option_and_then, if◌then◌else◌, OnSome, IsErrOf};
ghost use Rattle.std.specs.Int.{w64, from_le_bytes};
ghost use Rattle.bl_table.specs.declared.handle.Handle.{Handle as HandleRead};
ghost use Rattle.bl_table.specs.declared.fault.TableRule.TheVariants as rule;
ghost use Rattle.bl_table.specs.Faults.{Answers, expect, ◌or◌};
ghost use Rattle.bl_table.specs.Steps.{fault_of};
ghost use Rattle.bl_table.specs.Whole.{footer_in};
ghost use Rattle.bl_table.specs.Table.{ends_before, read_footer as reading};
ghost use Rattle.bl_table.specs.Handles.{Finds};
ghost use Rattle.bl_table.specs.Steps.{Moves};

use crate::builder::{HANDLES, MAGIC};
use crate::check::Fault;
use crate::fault::{BadTable, TableRule};
use crate::handle::Handle;
use bl_code::Taker;
use byteorder::{ByteOrder, LittleEndian};

/// The bytes of a footer.
pub(crate) const FOOTER: u64 = 48;

/// Takes a handle.
pub(crate) fn take_handle(taker: &mut Taker) -> Option<Handle>
    ensures handle { Finds result taker.old taker.new }
    ensures moves { OnSome result (Moves 2 taker.old taker.new) }
{
    let offset = taker.take_varint64()?;
    let size = taker.take_varint64()?;
    Some(Handle { offset, size })
}

/// Whether a block and its trailer end before a place.
pub(crate) fn is_inside(handle: &Handle, place: u64) -> bool
    ensures { result ≡ ends_before place handle.now }
{
    let Some(end) = handle.offset.checked_add(handle.size) else {
        return false;
    };
    end <= place && place - end >= 5
}

/// What a footer says: the handles of the metaindex block and of the index block, where they are spelled and
/// their blocks end before it, and its first fault.
#[derive(Clone, Copy, Drop)]
pub(crate) struct Footer {
    pub meta: Option<Handle>,
    pub index: Option<Handle>,
    pub fault: Option<Fault>,
}

// The handle of a block that ends before a place.
pub(crate) fn if_inside(handle: Option<Handle>, place: u64) -> Option<Handle>
    ensures { result ≡ option_and_then (λ (h : HandleRead). if ends_before place h then Some h else None) handle }
{
    let handle = handle?;
    if is_inside(&handle, place) {
        Some(handle)
    } else {
        None
    }
}

// The first fault of a footer that begins at a place, whose second handle stands at another.
fn footer_fault(
    meta: Option<Handle>,
    index: Option<Handle>,
    magic: &[u8],
    start: u64,
    place: u64,
) -> Option<Fault>
    requires magic { length magic.now ≡ 8 }
    requires place { start + 48 < 2 ^ 64 }
    ensures { fault_of result ≡ (expect (is_some meta) rule.Handle start or expect (is_some index) rule.Handle place or expect (from_le_bytes w64 magic.now == 0xDB4775248B80FB57) rule.Magic (start + 40)) }
{
    if meta.is_none() {
        return Some(Fault {
            rule: TableRule::Handle,
            place: start,
        });
    }
    if index.is_none() {
        return Some(Fault {
            rule: TableRule::Handle,
            place,
        });
    }
    if LittleEndian::read_u64(magic) != MAGIC {
        return Some(Fault {
            rule: TableRule::Magic,
            place: start + 40,
        });
    }
    None
}

/// The footer of a table of so many bytes.
pub(crate) fn footer_of(bytes: &[u8], size: u64) -> Footer
    requires bytes { length bytes.now ≡ 48 }
    requires size { 48 ≤ size }
    ensures meta { result.meta ≡ (footer_in size bytes.now).meta }
    ensures index { result.index ≡ (footer_in size bytes.now).index }
    ensures fault { fault_of result.fault ≡ (footer_in size bytes.now).fault }
{
    let start = size - FOOTER;
    let (handles, magic) = bytes.split_at(HANDLES);
    let mut taker = Taker::over(handles);
    let first = take_handle(&mut taker);
    let (second, place) = match first {
        Some(_) => {
            let place = start + taker.place();
            (take_handle(&mut taker), place)
        }
        None => (None, start),
    };
    let meta = if_inside(first, start);
    let index = if_inside(second, start);
    Footer {
        meta,
        index,
        fault: footer_fault(meta, index, magic, start, place),
    }
}

/// The handles of the metaindex block and of the index block, from the last 48 bytes of a table of so many
/// bytes. `Length` at 0 where there are not 48 bytes or the size is below 48; `Handle` at a handle that is
/// none, or of a block that passes the footer; `Magic` at the magic number. It takes no memory, and never
/// answers `OutOfMemory`.
pub fn read_footer(bytes: &[u8], size: u64) -> Result<(Handle, Handle), BadTable>
    ensures reads { Answers result (reading bytes.now size) }
    ensures memory { IsErrOf result BadTable.OutOfMemory → ⊥ }
{
    if bytes.len() as u64 != FOOTER || size < FOOTER {
        return Err(BadTable::At(TableRule::Length, 0));
    }
    let start = size - FOOTER;
    let (handles, magic) = bytes.split_at(HANDLES);
    let mut taker = Taker::over(handles);
    let Some(meta) = take_handle(&mut taker) else {
        return Err(BadTable::At(TableRule::Handle, start));
    };
    if !is_inside(&meta, start) {
        return Err(BadTable::At(TableRule::Handle, start));
    }
    let place = start + taker.place();
    let Some(index) = take_handle(&mut taker) else {
        return Err(BadTable::At(TableRule::Handle, place));
    };
    if !is_inside(&index, start) {
        return Err(BadTable::At(TableRule::Handle, place));
    }
    if LittleEndian::read_u64(magic) != MAGIC {
        return Err(BadTable::At(TableRule::Magic, size - 8));
    }
    Ok((meta, index))
}
