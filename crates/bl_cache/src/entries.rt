//! The entries of a table, which are to be in bounds.

ghost use Rattle.std.specs.Prelude.{◌≡◌, ℕ, IfOk, IsErrOf, IsTrue, Ok, Err};
ghost use Rattle.std.specs.List.{AllByRecursion};
ghost use Rattle.bl_entry.specs.Entries.{IsProper, IsValueOf};
ghost use Rattle.bl_table.specs.Whole.{read_table as reading};
ghost use Rattle.bl_cache.specs.declared.fault.Unread.TheVariants.{Disk, Damaged};
ghost use Rattle.bl_cache.specs.Reading.{entries_of, is_value as is_value_in, proper_entries as entries_in, proper_entry as entry_in};
ghost use Rattle.bl_cache.specs.Runs.{is_run};

use crate::fault::Unread;
use bl_code::MAX_VALUE;
use bl_entry::{BadKey, Entry, Kind, decode_key};
use bl_index::decode_index;
use bl_names::FILE_LIMIT;
use bl_table::{BadTable, BlockEntry, read_table, tables_are_read_block_by_block};
use std::alloc::Global;

// Whether a value of this kind is in bounds.
fn is_value(kind: Kind, value: &[u8]) -> bool
    ensures test { result ≡ is_value_in kind value.now }
    ensures bounds { IsTrue result → IsValueOf kind value.now }
{
    match kind {
        Kind::Deletion => value.is_empty(),
        Kind::Value => value.len() <= MAX_VALUE,
        Kind::BlobRef => match decode_index(value) {
            Ok(index) => 1 <= index.file && index.file < FILE_LIMIT,
            Err(_) => false,
        },
    }
}

// The entry that stands in a table.
fn proper_entry(alloc: Global, item: BlockEntry) -> Result<Entry, Unread>
    ensures given { IfOk result (λ e. entry_in item ≡ Ok e) }
    ensures fault { (place : ℕ) → result ≡ Err (Damaged place) → entry_in item ≡ Err place }
    ensures proper { IfOk result IsProper }
    ensures read { IsErrOf result Disk → ⊥ }
{
    let key = match decode_key(alloc, item.key.as_slice()) {
        Ok(key) => key,
        Err(BadKey::OutOfMemory) => return Err(Unread::OutOfMemory),
        Err(_) => return Err(Unread::Damaged(item.place)),
    };
    if !is_value(key.kind, item.value.as_slice()) {
        return Err(Unread::Damaged(item.place));
    }
    Ok(Entry {
        key,
        value: item.value,
    })
}

// The entries that stand in a table, or the first that is out of bounds.
fn proper_entries(alloc: Global, items: Vec<BlockEntry>) -> Result<Vec<Entry>, Unread>
    ensures given { IfOk result (λ es. entries_in items.items ≡ Ok es.items) }
    ensures fault { (place : ℕ) → result ≡ Err (Damaged place) → entries_in items.items ≡ Err place }
    ensures proper { IfOk result (λ es. AllByRecursion IsProper es.items) }
    ensures read { IsErrOf result Disk → ⊥ }
{
    let mut entries = Vec::with_capacity(alloc, items.len())?;
    for item in items {
        entries.push(proper_entry(alloc, item)?)?;
    }
    Ok(entries)
}

/// The entries of a table of these bytes, each of them in bounds.
///
/// Errors: `Damaged` at the table's first fault or, where it is a table, at its first entry out of bounds; `OutOfMemory`.
pub(crate) fn table_entries(alloc: Global, bytes: &[u8]) -> Result<Vec<Entry>, Unread>
    ensures given { IfOk result (λ es. entries_of (reading bytes.now) ≡ Ok es.items) }
    ensures fault { (place : ℕ) → result ≡ Err (Damaged place) → entries_of (reading bytes.now) ≡ Err place }
    ensures run { IfOk result (λ es. IsTrue (is_run es.items)) }
    ensures proper { IfOk result (λ es. AllByRecursion IsProper es.items) }
    ensures read { IsErrOf result Disk → ⊥ }
{
    tables_are_read_block_by_block();
    match read_table(alloc, bytes) {
        Ok(items) => proper_entries(alloc, items),
        Err(BadTable::At(_, place)) => Err(Unread::Damaged(place)),
        Err(BadTable::OutOfMemory) => Err(Unread::OutOfMemory),
    }
}
