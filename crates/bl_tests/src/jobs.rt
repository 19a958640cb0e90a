//! What the tests of outputs and of flushes share: entries and memories, options, and what stands in a folder.

ghost use Rattle.std.specs.Prelude.{◌^◌, ◌<◌, ◌≤◌, IfOk, OnOk, length};
ghost use Rattle.bl_tests.specs.Filling.{IsFilled, IsWrittenAt};

use bl_code::Octets;
use bl_edit::Options;
use bl_entry::{Entry, InternalKey, Kind};
use bl_memtab::{MemTable, later_is_free};
use bl_out::JobErr;
use bl_site_mem::MemSite;
use std::alloc::Global;
use std::test::Fail;

// The options of a fresh store, but for the size from which on a value goes to a blob file, and that of a blob file.
pub(crate) fn options_with(min_blob_size: u64, blob_file_size: u64) -> Options
    requires value { min_blob_size ≤ 2 ^ 32 }
    requires some { 1 ≤ blob_file_size }
    requires file { blob_file_size ≤ 2 ^ 40 }
{
    Options {
        min_blob_size,
        blob_file_size,
        write_buffer: 1 << 26,
        table_size: 1 << 26,
        level0_trigger: 4,
        level_base: 1 << 28,
        level_factor: 10,
        age_cutoff: 25,
        force_threshold: 100,
    }
}

// A size from which on a value is large, and one of a blob file, which three values of that size reach.
pub(crate) const LARGE_SIZE: u64 = 400;

pub(crate) const BLOB_FILE_SIZE: u64 = 1300;

const LARGE: [u8; 400] = [0x5A; 400];

const SMALL: [u8; 380] = [0x76; 380];

// Of twenty entries with keys `a` to `t`, four are deletions, four have large values, and twelve small ones.
pub(crate) fn entry_at(alloc: Global, place: u8, seq: u64) -> Result<Entry, JobErr>
    requires place { place < 20 }
    requires fits { seq < 2 ^ 56 }
    ensures { IfOk result (IsWrittenAt seq) }
{
    let user = [b'a' + place];
    if place % 5 == 4 {
        return deletion_of(alloc, &user, seq);
    }
    if place % 4 == 3 {
        return put_of(alloc, &user, seq, &LARGE);
    }
    put_of(alloc, &user, seq, &SMALL)
}

pub(crate) fn put_of(alloc: Global, user: &[u8], seq: u64, value: &[u8]) -> Result<Entry, JobErr>
    requires some { 1 ≤ length user.now }
    requires no_longer { length user.now ≤ 65535 }
    requires fits { seq < 2 ^ 56 }
    requires value { length value.now ≤ 16777216 }
    ensures { IfOk result (IsWrittenAt seq) }
{
    let user = Octets::from_slice(alloc, user)?;
    let value = Octets::from_slice(alloc, value)?;
    let kind = Kind::Value;
    Ok(Entry {
        key: InternalKey { user, seq, kind },
        value,
    })
}

pub(crate) fn deletion_of(alloc: Global, user: &[u8], seq: u64) -> Result<Entry, JobErr>
    requires some { 1 ≤ length user.now }
    requires no_longer { length user.now ≤ 65535 }
    requires fits { seq < 2 ^ 56 }
    ensures { IfOk result (IsWrittenAt seq) }
{
    let user = Octets::from_slice(alloc, user)?;
    let value = Octets::from_slice(alloc, b"")?;
    let kind = Kind::Deletion;
    Ok(Entry {
        key: InternalKey { user, seq, kind },
        value,
    })
}

// The entry takes its place in the memory, whose entries have sequences up to `last`.
pub(crate) fn insert(memory: &mut MemTable, last: u64, entry: Entry) -> Result<(), Fail>
    requires filled { IsFilled last memory.old }
    requires later { last < entry.key.seq }
    requires written { IsWrittenAt entry.key.seq entry }
    ensures { OnOk result (IsFilled entry.key.seq memory.new) }
{
    later_is_free();
    memory.insert(entry)?;
    Ok(())
}

// What a call answers, by name.
pub(crate) fn named<T: Drop>(answer: Result<T, JobErr>) -> &'static str {
    match answer {
        Ok(_) => "ok",
        Err(JobErr::Disk) => "disk",
        Err(JobErr::Corrupt(_, _)) => "corrupt",
        Err(JobErr::Full(_)) => "full",
        Err(JobErr::OutOfMemory) => "memory",
    }
}

// How many bytes a file has, or none where it is not there.
pub(crate) fn size_of(site: &MemSite, name: &str) -> Option<usize> {
    match site.file(name) {
        Some(bytes) => Some(bytes.len()),
        None => None,
    }
}

// Whether a file is there and has these bytes.
pub(crate) fn holds(site: &MemSite, name: &str, bytes: &[u8]) -> bool {
    match site.file(name) {
        Some(found) => found == bytes,
        None => false,
    }
}

const TABLE: &str = "000004.sst";

const FIRST: &str = "000005.blob";

const SECOND: &str = "000006.blob";

// No test makes so many calls.
pub(crate) const NO_CALL: u64 = 100;

// A folder with other files, in which a call fails.
pub(crate) fn folder_where(alloc: Global, call: u64) -> Result<MemSite, Fail> {
    let mut site = MemSite::with_failures(alloc, &[call])?;
    site.put_file("CURRENT", b"MANIFEST-000001\n")?;
    site.put_file("000003.log", b"log")?;
    site.put_file("000003.sst", b"before")?;
    site.put_file("000007.sst", b"behind")?;
    Ok(site)
}

// Whether those other files are as they were, and so many more are there.
pub(crate) fn others_stay(alloc: Global, site: &mut MemSite, made: usize) -> Result<bool, Fail> {
    let names = site.list(alloc)?;
    Ok(
        names.len() == made.saturating_add(4)
            && holds(site, "CURRENT", b"MANIFEST-000001\n")
            && holds(site, "000003.log", b"log")
            && holds(site, "000003.sst", b"before")
            && holds(site, "000007.sst", b"behind"),
    )
}

// The sizes of the table and of the two blob files of those twenty entries.
pub(crate) fn sizes_of(site: &MemSite) -> [Option<usize>; 3] {
    [
        size_of(site, TABLE),
        size_of(site, FIRST),
        size_of(site, SECOND),
    ]
}

// Whether a file is not there, or is a front of what it is in another folder.
fn is_front(site: &MemSite, whole: &MemSite, name: &str) -> bool {
    match (site.file(name), whole.file(name)) {
        (None, _) => true,
        (Some(front), Some(file)) => file.starts_with(front),
        (Some(_), None) => false,
    }
}

pub(crate) fn are_fronts(site: &MemSite, whole: &MemSite) -> bool {
    is_front(site, whole, TABLE) && is_front(site, whole, FIRST) && is_front(site, whole, SECOND)
}

// For each call that fails: the number that is next, and how many bytes the three files have, of which half are of an append
// that fails. The table is made (1), and then the first blob file (2) with a header and three records of three pieces
// each (3 to 12) and its footer (13); the second one (14) with a header and a record (15 to 18); a block of the table
// (19), the rest of the table (20) and its sync (21), the sync of the first blob file (22), and the
// footer (23) and the sync (24) of the second one.
pub(crate) const LEFT: [(u64, u64, [Option<usize>; 3]); 24] = [
    (1, 5, [None, None, None]),
    (2, 6, [Some(0), None, None]),
    (3, 6, [Some(0), Some(15), None]),
    (4, 6, [Some(0), Some(46), None]),
    (5, 6, [Some(0), Some(62), None]),
    (6, 6, [Some(0), Some(263), None]),
    (7, 6, [Some(0), Some(479), None]),
    (8, 6, [Some(0), Some(495), None]),
    (9, 6, [Some(0), Some(696), None]),
    (10, 6, [Some(0), Some(912), None]),
    (11, 6, [Some(0), Some(928), None]),
    (12, 6, [Some(0), Some(1129), None]),
    (13, 6, [Some(0), Some(1345), None]),
    (14, 7, [Some(0), Some(1361), None]),
    (15, 7, [Some(0), Some(1361), Some(15)]),
    (16, 7, [Some(0), Some(1361), Some(46)]),
    (17, 7, [Some(0), Some(1361), Some(62)]),
    (18, 7, [Some(0), Some(1361), Some(263)]),
    (19, 7, [Some(2225), Some(1361), Some(463)]),
    (20, 7, [Some(4711), Some(1361), Some(463)]),
    (21, 7, [Some(4973), Some(1361), Some(463)]),
    (22, 7, [Some(4973), Some(1361), Some(463)]),
    (23, 7, [Some(4973), Some(1361), Some(479)]),
    (24, 7, [Some(4973), Some(1361), Some(495)]),
];
