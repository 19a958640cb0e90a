//! Reading of edits.

ghost use Rattle.std.specs.Prelude.{◌≡◌, IfOk, OnOk};
ghost use Rattle.bl_edit.specs.Bounds.{FitsWords, IsEdit};
ghost use Rattle.bl_edit.specs.Found.{field_of, table_of};
ghost use Rattle.bl_edit.specs.Reading.{Decodes, read_edit, with_field};

use crate::edit::{Edit, NewTable};
use crate::error::{BadEdit, EditErr};
use crate::field::{Field, TableField, take_field};
use bl_code::{Octets, Taker};
use std::alloc::Global;

/// The edit that all of these bytes spell, its fields in any order: of a field that may stand once the last
/// one counts. It is in the bounds that `encode_edit` asks for. Or `At` for the first field that is none, is
/// cut, or holds what is out of bounds: its tag, and the place of that tag; 0 for the tag where it is cut
/// itself. `OutOfMemory` where memory runs out.
pub fn decode_edit(alloc: Global, bytes: &[u8]) -> Result<Edit, BadEdit>
    ensures exact { Decodes result (read_edit bytes.now) }
    ensures bounds { IfOk result (λ edit. IsEdit edit × FitsWords edit) }
{
    let mut taker = Taker::over(bytes);
    let mut edit = Edit::new(alloc);
    while taker.left() > 0 {
        let place = taker.place();
        let Some(tag) = taker.take_varint32() else {
            return Err(BadEdit::At(0, place));
        };
        let Some(field) = take_field(tag, &mut taker) else {
            return Err(BadEdit::At(tag, place));
        };
        add_field(alloc, &mut edit, &field)?;
    }
    Ok(edit)
}

// A field joins an edit.
fn add_field(alloc: Global, edit: &mut Edit, field: &Field<'_>) -> Result<(), EditErr>
    ensures { OnOk result (edit.new ≡ with_field edit.old (field_of field.now)) }
{
    match field {
        Field::Comparator => edit.comparator = true,
        Field::LogNumber(number) => edit.log_number = Some(*number),
        Field::NextFile(number) => edit.next_file = Some(*number),
        Field::LastSequence(sequence) => edit.last_sequence = Some(*sequence),
        Field::Fixed(options) => edit.options = Some(*options),
        Field::Deleted(table) => edit.deleted.push(*table)?,
        Field::Added(table) => edit.added.push(own(alloc, table)?)?,
        Field::Blob(file) => edit.blobs.push(*file)?,
        Field::Garbage(file) => edit.garbage.push(*file)?,
        Field::Passed => {}
    }
    Ok(())
}

// The same table with keys of its own.
fn own(alloc: Global, table: &TableField<'_>) -> Result<NewTable, EditErr>
    ensures { IfOk result (λ t. t ≡ table_of table.now) }
{
    Ok(NewTable {
        level: table.level,
        number: table.number,
        size: table.size,
        smallest: Octets::from_slice(alloc, table.smallest)?,
        largest: Octets::from_slice(alloc, table.largest)?,
        least_seq: table.least_seq,
        most_seq: table.most_seq,
        oldest_blob: table.oldest_blob,
    })
}
