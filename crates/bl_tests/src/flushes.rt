//! Flushes of memories: what stands in the files and in the edit, and what is left where a call of the folder fails.

ghost use Rattle.std.specs.Prelude.{◌^◌, ◌<◌, ◌≤◌, IfOk, length};
ghost use Rattle.bl_edit.specs.Bounds.{IsEdit};
ghost use Rattle.bl_flush.specs.Jobs.{ArePutsAndDeletions};
ghost use Rattle.bl_tests.specs.Filling.{IsFilled};

use crate::jobs::{
    BLOB_FILE_SIZE, LARGE_SIZE, LEFT, NO_CALL, are_fronts, deletion_of, entry_at, folder_where,
    holds, insert, named, options_with, others_stay, put_of, size_of, sizes_of,
};
use bl_blob::read_blob_file;
use bl_code::Octets;
use bl_edit::{Edit, Options, encode_edit};
use bl_flush::flush_all;
use bl_memtab::MemTable;
use bl_out::Numbers;
use bl_site_mem::MemSite;
use bl_table::read_table;
use std::alloc::Global;
use std::test::Fail;

// The table of key `a` at sequence 1 whose value, of three bytes, is the first of blob file 5.
const REFERRING: &[u8; 118] =
    b"\x00\x09\x05\x61\x11\x01\x00\x00\x00\x00\x00\x00\x01\x05\x3F\x03\x00\
\x00\x00\x00\x00\x01\x00\x00\x00\x00\x5B\x41\xDC\x58\
\x00\x00\x00\x00\x01\x00\x00\x00\x00\xC0\xF2\xA1\xB0\
\x00\x09\x02\x61\x11\x01\x00\x00\x00\x00\x00\x00\x00\x19\
\x00\x00\x00\x00\x01\x00\x00\x00\x00\xCE\xDB\xEA\x86\
\x1E\x08\x2B\x16\
\0\0\0\0\0\0\0\0\0\0\0\0\0\0\0\0\0\0\0\0\0\0\0\0\0\0\0\0\0\0\0\0\0\0\0\0\x57\xFB\x80\x8B\x24\x75\x47\xDB";

// That blob file, with the value `xyz`, as RocksDB writes it.
const BLOB: &[u8; 98] = b"\x37\x8F\x24\x00\x01\x00\x00\x00\x00\x00\x00\x00\x00\x00\
\0\0\0\0\0\0\0\0\0\0\0\0\0\0\0\0\
\x01\x00\x00\x00\x00\x00\x00\x00\x03\x00\x00\x00\x00\x00\x00\x00\
\x00\x00\x00\x00\x00\x00\x00\x00\x70\x45\xA9\x3F\xA4\x44\x5C\x66axyz\
\x37\x8F\x24\x00\x01\x00\x00\x00\x00\x00\x00\x00\
\0\0\0\0\0\0\0\0\0\0\0\0\0\0\0\0\xFB\x71\x4A\xE8";

// The edit that a store installs of that flush: log number 3, next file number 6, last sequence 1, table 4, and blob file 5.
const INSTALLED: [u8; 44] = [
    2, 3, 3, 6, 4, 1, 0x67, 0, 4, 0x76, 9, 0x61, 0x11, 1, 0, 0, 0, 0, 0, 0, 9, 0x61, 0x11, 1, 0, 0,
    0, 0, 0, 0, 1, 1, 4, 1, 5, 1, 0x90, 3, 5, 1, 0x24, 0, 0, 0,
];

// The table of key `a` at sequence 1 with the value `xy`.
const INLINE: &[u8; 115] = b"\x00\x09\x02\x61\x01\x01\x00\x00\x00\x00\x00\x00xy\
\x00\x00\x00\x00\x01\x00\x00\x00\x00\x3B\x8B\xC5\x5F\
\x00\x00\x00\x00\x01\x00\x00\x00\x00\xC0\xF2\xA1\xB0\
\x00\x09\x02\x61\x01\x01\x00\x00\x00\x00\x00\x00\x00\x16\
\x00\x00\x00\x00\x01\x00\x00\x00\x00\x4B\xD9\x21\x8B\
\x1B\x08\x28\x16\
\0\0\0\0\0\0\0\0\0\0\0\0\0\0\0\0\0\0\0\0\0\0\0\0\0\0\0\0\0\0\0\0\0\0\0\0\x57\xFB\x80\x8B\x24\x75\x47\xDB";

// The table of key `a` at sequence 1 whose value, which is empty, is the first of blob file 5.
const REFERRING_TO_NOTHING: &[u8; 118] =
    b"\x00\x09\x05\x61\x11\x01\x00\x00\x00\x00\x00\x00\x01\x05\x3F\x00\x00\
\x00\x00\x00\x00\x01\x00\x00\x00\x00\x57\x19\xBF\x0D\
\x00\x00\x00\x00\x01\x00\x00\x00\x00\xC0\xF2\xA1\xB0\
\x00\x09\x02\x61\x11\x01\x00\x00\x00\x00\x00\x00\x00\x19\
\x00\x00\x00\x00\x01\x00\x00\x00\x00\xCE\xDB\xEA\x86\
\x1E\x08\x2B\x16\
\0\0\0\0\0\0\0\0\0\0\0\0\0\0\0\0\0\0\0\0\0\0\0\0\0\0\0\0\0\0\0\0\0\0\0\0\x57\xFB\x80\x8B\x24\x75\x47\xDB";

// That blob file.
const EMPTY_BLOB: &[u8; 95] = b"\x37\x8F\x24\x00\x01\x00\x00\x00\x00\x00\x00\x00\x00\x00\
\0\0\0\0\0\0\0\0\0\0\0\0\0\0\0\0\
\x01\x00\x00\x00\x00\x00\x00\x00\x00\x00\x00\x00\x00\x00\x00\x00\
\x00\x00\x00\x00\x00\x00\x00\x00\x40\x68\x43\xFF\x78\x6E\xE4\x28a\
\x37\x8F\x24\x00\x01\x00\x00\x00\x00\x00\x00\x00\
\0\0\0\0\0\0\0\0\0\0\0\0\0\0\0\0\xFB\x71\x4A\xE8";

// The same of the flush of that table: next file number 5, and no blob file.
const INSTALLED_INLINE: [u8; 33] = [
    2, 3, 3, 5, 4, 1, 0x67, 0, 4, 0x73, 9, 0x61, 1, 1, 0, 0, 0, 0, 0, 0, 9, 0x61, 1, 1, 0, 0, 0, 0,
    0, 0, 1, 1, 1,
];

// The same of the flush of an empty value: its record has 33 bytes.
const INSTALLED_EMPTY: [u8; 44] = [
    2, 3, 3, 6, 4, 1, 0x67, 0, 4, 0x76, 9, 0x61, 0x11, 1, 0, 0, 0, 0, 0, 0, 9, 0x61, 0x11, 1, 0, 0,
    0, 0, 0, 0, 1, 1, 4, 1, 5, 1, 0x90, 3, 5, 1, 0x21, 0, 0, 0,
];

// What a flush leaves: the folder, the edit that a store installs of it, and the number that is next.
#[derive(Drop)]
struct Flushed {
    site: MemSite,
    installed: Octets,
    next: u64,
}

// A memory with one value at sequence 1.
fn memory_of(alloc: Global, value: &[u8]) -> Result<MemTable, Fail>
    requires { length value.now ≤ 16777216 }
    ensures { IfOk result (IsFilled 1) }
{
    let mut memory = MemTable::start(alloc);
    let entry = put_of(alloc, b"a", 1, value)?;
    insert(&mut memory, 0, entry)?;
    Ok(memory)
}

// The bytes of an edit to which a store adds log number 3, the next file number, and last sequence 1.
fn installed(alloc: Global, mut edit: Edit, next: u64) -> Result<Octets, Fail>
    requires { IsEdit edit }
{
    edit.log_number = Some(3);
    edit.next_file = Some(next);
    edit.last_sequence = Some(1);
    Ok(encode_edit(alloc, &edit)?)
}

// A memory is flushed into an empty folder, with numbers from 4 on.
fn flush(alloc: Global, memory: &MemTable, options: &Options) -> Result<Flushed, Fail>
    requires { ArePutsAndDeletions memory.now }
{
    let mut site = MemSite::start(alloc)?;
    let mut numbers = Numbers::from(4);
    let edit = flush_all(alloc, &mut site, &mut numbers, memory, options, &[])?;
    let next = numbers.next();
    let installed = installed(alloc, edit, next)?;
    Ok(Flushed {
        site,
        installed,
        next,
    })
}

#[test]
fn a_large_value_leaves_the_table(rt: HostRuntime) -> Result<(), Fail> {
    let memory = memory_of(rt.alloc(), b"xyz")?;
    let flushed = flush(rt.alloc(), &memory, &options_with(3, 1 << 28))?;
    assert_eq!(rt; flushed.next, 6);
    assert!(rt; holds(&flushed.site, "000004.sst", REFERRING));
    assert!(rt; holds(&flushed.site, "000005.blob", BLOB));
    assert_eq!(rt; flushed.installed.as_slice(), INSTALLED.as_slice());
    Ok(())
}

#[test]
fn a_small_value_stays_in_the_table(rt: HostRuntime) -> Result<(), Fail> {
    let memory = memory_of(rt.alloc(), b"xy")?;
    let flushed = flush(rt.alloc(), &memory, &options_with(3, 1 << 28))?;
    assert_eq!(rt; flushed.next, 5);
    assert!(rt; holds(&flushed.site, "000004.sst", INLINE));
    assert_eq!(rt; size_of(&flushed.site, "000005.blob"), None);
    assert_eq!(rt; flushed.installed.as_slice(), INSTALLED_INLINE.as_slice());
    Ok(())
}

#[test]
fn an_empty_value_may_be_large(rt: HostRuntime) -> Result<(), Fail> {
    let memory = memory_of(rt.alloc(), b"")?;
    let flushed = flush(rt.alloc(), &memory, &options_with(0, 1 << 28))?;
    assert_eq!(rt; flushed.next, 6);
    assert!(rt; holds(&flushed.site, "000004.sst", REFERRING_TO_NOTHING));
    assert!(rt; holds(&flushed.site, "000005.blob", EMPTY_BLOB));
    assert_eq!(rt; flushed.installed.as_slice(), INSTALLED_EMPTY.as_slice());
    Ok(())
}

#[test]
fn an_empty_memory_makes_no_file(rt: HostRuntime) -> Result<(), Fail> {
    let memory = MemTable::start(rt.alloc());
    let flushed = flush(rt.alloc(), &memory, &options_with(0, 1))?;
    assert_eq!(rt; flushed.next, 4);
    assert_eq!(rt; flushed.site.calls(), 0);
    assert_eq!(rt; flushed.installed.as_slice(), [2, 3, 3, 4, 4, 1].as_slice());
    Ok(())
}

// Three values of three bytes.
fn memory_of_three(alloc: Global) -> Result<MemTable, Fail>
    ensures { IfOk result (IsFilled 3) }
{
    let mut memory = MemTable::start(alloc);
    let second = put_of(alloc, b"b", 1, b"uvw")?;
    insert(&mut memory, 0, second)?;
    let third = put_of(alloc, b"c", 2, b"rst")?;
    insert(&mut memory, 1, third)?;
    let first = put_of(alloc, b"a", 3, b"xyz")?;
    insert(&mut memory, 2, first)?;
    Ok(memory)
}

// The count of a blob file's records, and the offset and the bytes of the value of the last one.
fn last_blob(alloc: Global, site: &MemSite, name: &str) -> Result<(usize, u64, Octets), Fail> {
    let bytes = site.file(name).ok_or("no file")?;
    let mut blobs = read_blob_file(alloc, bytes)?;
    let count = blobs.len();
    let last = blobs.pop().ok_or("no record")?;
    Ok((count, last.offset, last.value))
}

#[test]
fn blob_files_are_closed_by_their_size(rt: HostRuntime) -> Result<(), Fail> {
    // A record has 36 bytes, so that the second one brings the first file to 102.
    let memory = memory_of_three(rt.alloc())?;
    let flushed = flush(rt.alloc(), &memory, &options_with(3, 102))?;
    assert_eq!(rt; flushed.next, 7);
    assert_eq!(rt; sizes_of(&flushed.site), [Some(152), Some(134), Some(98)]);
    let (count, offset, value) = last_blob(rt.alloc(), &flushed.site, "000005.blob")?;
    assert_eq!(rt; (count, offset), (2, 99));
    assert_eq!(rt; value.as_slice(), b"uvw".as_slice());
    let (count, offset, value) = last_blob(rt.alloc(), &flushed.site, "000006.blob")?;
    assert_eq!(rt; (count, offset), (1, 63));
    assert_eq!(rt; value.as_slice(), b"rst".as_slice());
    Ok(())
}

// A value at sequence 1, over which a deletion stands at sequence 2.
fn deleted(alloc: Global) -> Result<MemTable, Fail>
    ensures { IfOk result (IsFilled 2) }
{
    let mut memory = memory_of(alloc, b"xyz")?;
    let deletion = deletion_of(alloc, b"a", 2)?;
    insert(&mut memory, 1, deletion)?;
    Ok(memory)
}

// How many entries the table of a flush has, and the number that is next.
fn kept(alloc: Global, memory: &MemTable, snapshots: &[u64]) -> Result<(usize, u64), Fail>
    requires { ArePutsAndDeletions memory.now }
{
    let mut site = MemSite::start(alloc)?;
    let mut numbers = Numbers::from(4);
    let options = options_with(0, 1 << 28);
    flush_all(alloc, &mut site, &mut numbers, memory, &options, snapshots)?;
    let table = site.file("000004.sst").ok_or("no table")?;
    let entries = read_table(alloc, table)?;
    Ok((entries.len(), numbers.next()))
}

#[test]
fn what_a_snapshot_sees_is_kept(rt: HostRuntime) -> Result<(), Fail> {
    let memory = deleted(rt.alloc())?;
    assert_eq!(rt; kept(rt.alloc(), &memory, &[])?, (1, 5));
    assert_eq!(rt; kept(rt.alloc(), &memory, &[0])?, (1, 5));
    assert_eq!(rt; kept(rt.alloc(), &memory, &[1])?, (2, 6));
    assert_eq!(rt; kept(rt.alloc(), &memory, &[2])?, (1, 5));
    Ok(())
}

// All twenty entries, inserted out of order.
fn memory_of_twenty(alloc: Global) -> Result<MemTable, Fail>
    ensures { IfOk result (IsFilled 20) }
{
    let mut memory = MemTable::start(alloc);
    'entries: for i in 0..20u8 {
        let last = u64::from(i);
        let entry = entry_at(alloc, i * 7 % 20, last + 1)?;
        insert(&mut memory, last, entry)?;
    }
    Ok(memory)
}

// What a flush of the twenty entries answers and leaves where a call of the folder fails, and the number that is next.
fn flush_where(alloc: Global, call: u64) -> Result<(&'static str, u64, MemSite), Fail> {
    let memory = memory_of_twenty(alloc)?;
    let options = options_with(LARGE_SIZE, BLOB_FILE_SIZE);
    let mut site = folder_where(alloc, call)?;
    let mut numbers = Numbers::from(4);
    let answer = flush_all(alloc, &mut site, &mut numbers, &memory, &options, &[]);
    Ok((named(answer), numbers.next(), site))
}

#[test]
fn twenty_entries_are_flushed(rt: HostRuntime) -> Result<(), Fail> {
    let (answer, next, mut site) = flush_where(rt.alloc(), NO_CALL)?;
    assert_eq!(rt; (answer, next), ("ok", 7));
    assert_eq!(rt; site.calls(), 24);
    assert_eq!(rt; sizes_of(&site), [Some(4973), Some(1361), Some(495)]);
    assert!(rt; others_stay(rt.alloc(), &mut site, 3)?);
    Ok(())
}

#[test]
fn each_call_that_fails(rt: HostRuntime) -> Result<(), Fail> {
    let (_, _, whole) = flush_where(rt.alloc(), NO_CALL)?;
    for (call, wanted, sizes) in LEFT {
        let (answer, next, mut site) = flush_where(rt.alloc(), call)?;
        assert_eq!(rt; (answer, next), ("disk", wanted), "call {call}");
        assert_eq!(rt; site.calls(), call, "call {call}");
        assert_eq!(rt; sizes_of(&site), sizes, "call {call}");
        assert!(rt; are_fronts(&site, &whole), "call {call}");
        let made = sizes.iter().flatten().count();
        assert!(rt; others_stay(rt.alloc(), &mut site, made)?, "call {call}");
    }
    Ok(())
}

// What a flush of a large value answers where numbers are left from this one on, and the number that is then next.
fn flush_from(alloc: Global, first: u64) -> Result<(&'static str, u64, u64), Fail>
    requires some { 1 ≤ first }
    requires bound { first ≤ 10 ^ 15 }
{
    let memory = memory_of(alloc, b"xyz")?;
    let options = options_with(3, 1 << 28);
    let mut site = MemSite::start(alloc)?;
    let mut numbers = Numbers::from(first);
    let answer = flush_all(alloc, &mut site, &mut numbers, &memory, &options, &[]);
    Ok((named(answer), numbers.next(), site.calls()))
}

#[test]
fn numbers_run_out(rt: HostRuntime) -> Result<(), Fail> {
    let end = 1_000_000_000_000_000;
    assert_eq!(rt; flush_from(rt.alloc(), end)?, ("full", end, 0));
    assert_eq!(rt; flush_from(rt.alloc(), end - 1)?, ("full", end, 1));
    assert_eq!(rt; flush_from(rt.alloc(), end - 2)?, ("ok", end, 10));
    Ok(())
}
