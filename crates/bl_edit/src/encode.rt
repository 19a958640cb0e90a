//! Spelling of edits.

ghost use Rattle.std.specs.Prelude.{◌≡◌, ◌++◌, ◌<◌, ◌^◌, flat_map, IfOk, IfSome, OnOk, Ok, IsTrue};
ghost use Rattle.std.specs.List.{AllByRecursion};
ghost use Rattle.bl_code.specs.Numbers.{varint64};
ghost use Rattle.bl_edit.specs.Bounds.{IsEdit, table_fits};
ghost use Rattle.bl_edit.specs.Reading.{read_edit};
ghost use Rattle.bl_edit.specs.Spelling.{addition_bytes, comparator_bytes, deleted_bytes, edit_bytes, garbage_bytes, oldest_bytes, option_bytes, options_bytes, single, singles_bytes, table_bytes};

use crate::edit::{BlobAddition, BlobGarbage, DeletedTable, Edit, NewTable};
use crate::error::EditErr;
use crate::options::Options;
use crate::tag;
use bl_code::{Octets, put_slice, put_varint32, put_varint64};
use std::alloc::Global;

/// An edit as it stands in a record of the manifest: the fields that stand once, and then the lists, each
/// in its order.
///
/// The edit is in bounds: levels from 0 to 6; numbers of tables and blob files from 1 to 10^15 - 1, or 0 for
/// no oldest blob file; internal keys of 9 to 65,543 bytes and of one of the three kinds; sequences below 2^56;
/// options in their ranges. `OutOfMemory` where memory runs out.
pub fn encode_edit(alloc: Global, edit: &Edit) -> Result<Octets, EditErr>
    requires { IsEdit edit.now }
    ensures bytes { IfOk result (λ bytes. bytes ≡ edit_bytes edit.now) }
    ensures reads { IfOk result (λ bytes. read_edit bytes ≡ Ok edit.now) }
{
    let mut bytes = Vec::new(alloc);
    put_singles(alloc, &mut bytes, edit)?;
    put_deleted(&mut bytes, edit.deleted.as_slice())?;
    put_added(alloc, &mut bytes, edit.added.as_slice())?;
    put_blobs(&mut bytes, edit.blobs.as_slice())?;
    put_garbage(&mut bytes, edit.garbage.as_slice())?;
    Ok(Octets::from_vec(bytes))
}

fn put_singles(alloc: Global, to: &mut Vec<u8>, edit: &Edit) -> Result<(), EditErr>
    ensures bytes { OnOk result (to.new.items ≡ to.old.items ++ singles_bytes edit.now) }
    ensures log_number { OnOk result (IfSome edit.now.log_number (λ n. n < 2 ^ 64)) }
    ensures next_file { OnOk result (IfSome edit.now.next_file (λ n. n < 2 ^ 64)) }
{
    put_comparator(to, edit.comparator)?;
    put_number(to, tag::LOG_NUMBER, edit.log_number)?;
    put_number(to, tag::NEXT_FILE, edit.next_file)?;
    put_number(to, tag::LAST_SEQUENCE, edit.last_sequence)?;
    put_options(alloc, to, edit.options)?;
    Ok(())
}

fn put_comparator(to: &mut Vec<u8>, given: bool) -> Result<(), EditErr>
    ensures { OnOk result (to.new.items ≡ to.old.items ++ comparator_bytes given) }
{
    if given {
        put_varint32(to, tag::COMPARATOR)?;
        put_slice(to, tag::COMPARATOR_NAME)?;
    }
    Ok(())
}

fn put_number(to: &mut Vec<u8>, tag: u32, number: Option<u64>) -> Result<(), EditErr>
    ensures bytes { OnOk result (to.new.items ≡ to.old.items ++ single tag varint64 number) }
    ensures small { IfSome number (λ n. n < 2 ^ 64) }
{
    if let Some(number) = number {
        put_varint32(to, tag)?;
        put_varint64(to, number)?;
    }
    Ok(())
}

fn put_options(alloc: Global, to: &mut Vec<u8>, options: Option<Options>) -> Result<(), EditErr>
    ensures { OnOk result (to.new.items ≡ to.old.items ++ single 9216 options_bytes options) }
{
    if let Some(options) = options {
        let numbers = option_numbers(alloc, &options)?;
        put_varint32(to, tag::OPTIONS)?;
        put_slice(to, &numbers)?;
    }
    Ok(())
}

fn option_numbers(alloc: Global, options: &Options) -> Result<Vec<u8>, EditErr>
    ensures { IfOk result (λ bytes. bytes.items ≡ option_bytes options.now) }
{
    let mut bytes = Vec::new(alloc);
    put_varint64(&mut bytes, options.min_blob_size)?;
    put_varint64(&mut bytes, options.blob_file_size)?;
    put_varint64(&mut bytes, options.write_buffer)?;
    put_varint64(&mut bytes, options.table_size)?;
    put_varint64(&mut bytes, options.level0_trigger)?;
    put_varint64(&mut bytes, options.level_base)?;
    put_varint64(&mut bytes, options.level_factor)?;
    put_varint64(&mut bytes, options.age_cutoff)?;
    put_varint64(&mut bytes, options.force_threshold)?;
    Ok(bytes)
}

fn put_deleted(to: &mut Vec<u8>, deleted: &[DeletedTable]) -> Result<(), EditErr>
    ensures { OnOk result (to.new.items ≡ to.old.items ++ flat_map deleted_bytes deleted.now) }
{
    for table in deleted {
        put_varint32(to, tag::DELETED)?;
        put_varint32(to, table.level)?;
        put_varint64(to, table.number)?;
    }
    Ok(())
}

fn put_added(alloc: Global, to: &mut Vec<u8>, added: &[NewTable]) -> Result<(), EditErr>
    requires { AllByRecursion (λ t. IsTrue (table_fits t)) added.now }
    ensures bytes { OnOk result (to.new.items ≡ to.old.items ++ flat_map table_bytes added.now) }
    ensures sizes { OnOk result (AllByRecursion (λ t. t.size < 2 ^ 64) added.now) }
{
    for table in added {
        put_table(alloc, to, table)?;
    }
    Ok(())
}

fn put_table(alloc: Global, to: &mut Vec<u8>, table: &NewTable) -> Result<(), EditErr>
    requires { IsTrue (table_fits table.now) }
    ensures bytes { OnOk result (to.new.items ≡ to.old.items ++ table_bytes table.now) }
    ensures size { OnOk result (table.now.size < 2 ^ 64) }
{
    put_varint32(to, tag::ADDED)?;
    put_varint32(to, table.level)?;
    put_varint64(to, table.number)?;
    put_varint64(to, table.size)?;
    put_slice(to, table.smallest.as_slice())?;
    put_slice(to, table.largest.as_slice())?;
    put_varint64(to, table.least_seq)?;
    put_varint64(to, table.most_seq)?;
    put_oldest(alloc, to, table.oldest_blob)?;
    put_varint32(to, tag::TABLE_END)?;
    Ok(())
}

fn put_oldest(alloc: Global, to: &mut Vec<u8>, file: u64) -> Result<(), EditErr>
    ensures { OnOk result (to.new.items ≡ to.old.items ++ oldest_bytes file) }
{
    if file != 0 {
        let mut number = Vec::new(alloc);
        put_varint64(&mut number, file)?;
        put_varint32(to, tag::OLDEST_BLOB)?;
        put_slice(to, &number)?;
    }
    Ok(())
}

fn put_blobs(to: &mut Vec<u8>, blobs: &[BlobAddition]) -> Result<(), EditErr>
    ensures bytes { OnOk result (to.new.items ≡ to.old.items ++ flat_map addition_bytes blobs.now) }
    ensures totals { OnOk result (AllByRecursion (λ b. (b.count < 2 ^ 64) × (b.bytes < 2 ^ 64)) blobs.now) }
{
    for blob in blobs {
        put_blob(to, blob)?;
    }
    Ok(())
}

fn put_blob(to: &mut Vec<u8>, blob: &BlobAddition) -> Result<(), EditErr>
    ensures bytes { OnOk result (to.new.items ≡ to.old.items ++ addition_bytes blob.now) }
    ensures small { OnOk result ((blob.now.count < 2 ^ 64) × (blob.now.bytes < 2 ^ 64)) }
{
    put_varint32(to, tag::BLOB)?;
    put_varint64(to, blob.number)?;
    put_varint64(to, blob.count)?;
    put_varint64(to, blob.bytes)?;
    // Method and value of a checksum that this store does not take.
    put_slice(to, b"")?;
    put_slice(to, b"")?;
    put_varint32(to, tag::BLOB_END)?;
    Ok(())
}

fn put_garbage(to: &mut Vec<u8>, garbage: &[BlobGarbage]) -> Result<(), EditErr>
    ensures bytes { OnOk result (to.new.items ≡ to.old.items ++ flat_map garbage_bytes garbage.now) }
    ensures totals { OnOk result (AllByRecursion (λ g. (g.count < 2 ^ 64) × (g.bytes < 2 ^ 64)) garbage.now) }
{
    for file in garbage {
        put_file_garbage(to, file)?;
    }
    Ok(())
}

fn put_file_garbage(to: &mut Vec<u8>, file: &BlobGarbage) -> Result<(), EditErr>
    ensures bytes { OnOk result (to.new.items ≡ to.old.items ++ garbage_bytes file.now) }
    ensures small { OnOk result ((file.now.count < 2 ^ 64) × (file.now.bytes < 2 ^ 64)) }
{
    put_varint32(to, tag::GARBAGE)?;
    put_varint64(to, file.number)?;
    put_varint64(to, file.count)?;
    put_varint64(to, file.bytes)?;
    put_varint32(to, tag::BLOB_END)?;
    Ok(())
}
