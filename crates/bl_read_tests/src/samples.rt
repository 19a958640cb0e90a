//! Versions with memories beside them, made of a list of writes, and what a plain map tells of these.

ghost use Rattle.std.specs.Prelude.{◌≡◌, ◌^◌, ◌<◌, ◌≤◌, IfOk, OnOk, length};
ghost use Rattle.bl_entry.specs.Entries.{EntriesUpTo};

use crate::samples::Put::{Far, Gone, Here};
use bl_blob::BlobBuilder;
use bl_build::{Version, apply};
use bl_code::{Octets, put_slice, put_varint32, put_varint64};
use bl_edit::decode_edit;
use bl_entry::{Entry, InternalKey, Kind, encode_key};
use bl_index::{BlobIndex, encode_index};
use bl_memtab::{MemTable, later_is_free};
use bl_site_mem::MemSite;
use bl_table::TableBuilder;
use std::alloc::Global;
use std::collections::BTreeMap;
use std::test::Fail;

/// The keys that are written, in their order.
pub(crate) const KEYS: [&str; 6] = ["a", "aa", "b", "b\u{0}", "c", "d"];

/// What is written of a key.
#[derive(Clone, Copy, Drop)]
pub(crate) enum Put {
    /// It is deleted.
    Gone,
    /// Its value stands in its entry.
    Here,
    /// Its value stands in a blob file, once it is in a table.
    Far,
}

/// A key and what is written of it. The first of a list has the sequence 1, and each other the next one.
pub(crate) type Write = (&'static str, Put);

/// How many of the writes, the oldest first, are in the tables 1 and 2 of level 2, in the tables 3 and 4 of level 1, in
/// the tables 5 and 6 of level 0, in the memory that waits, and in the one in use.
pub(crate) type Counts = [usize; 6];

/// A folder, its version, and the memories.
#[derive(Drop)]
pub(crate) struct Sample {
    pub(crate) site: MemSite,
    pub(crate) version: Version,
    pub(crate) waiting: MemTable,
    pub(crate) in_use: MemTable,
}

/// The value that a key is given at a sequence.
pub(crate) fn value_of(alloc: Global, key: &str, seq: u64) -> Result<String, Fail> {
    Ok(format!(in alloc; "{key}={seq}")?)
}

/// The keys that have a value after the writes up to a sequence, each with the sequence of its value.
pub(crate) fn map_at(
    alloc: Global,
    writes: &[Write],
    seq: u64,
) -> Result<BTreeMap<&'static str, u64>, Fail> {
    let mut map = BTreeMap::new(alloc);
    let mut at: u64 = 0;
    for &(key, put) in writes {
        at = at.wrapping_add(1);
        if at <= seq {
            match put {
                Gone => {
                    map.remove(&key);
                }
                Here | Far => {
                    map.insert(key, at)?;
                }
            }
        }
    }
    Ok(map)
}

/// Each key twice and more, so that each place below has values of both kinds, and deletions of what is below it.
pub(crate) const WRITES: [Write; 22] = [
    ("a", Far),
    ("b", Here),
    ("c", Far),
    ("d", Far),
    ("aa", Here),
    ("a", Far),
    ("c", Gone),
    ("d", Here),
    ("b", Gone),
    ("b\u{0}", Far),
    ("b", Far),
    ("aa", Gone),
    ("c", Here),
    ("c", Far),
    ("a", Gone),
    ("d", Far),
    ("aa", Far),
    ("a", Here),
    ("b", Gone),
    ("c", Gone),
    ("b\u{0}", Here),
    ("d", Gone),
];

pub(crate) const COUNTS: Counts = [5, 4, 3, 3, 4, 3];

// The files and the edit that are being made.
#[derive(Drop)]
struct Making {
    site: MemSite,
    edit: Vec<u8>,
    blob: BlobBuilder,
    blob_bytes: Vec<u8>,
}

// The number of the blob file.
const BLOB: u64 = 9;

// The index of a value that joins the blob file.
fn far(alloc: Global, making: &mut Making, key: &str, value: &str) -> Result<Octets, Fail> {
    if key.is_empty() || key.len() > 100 || value.len() > 100 || making.blob.size() > 100_000 {
        return Err(Fail::from("too long"));
    }
    let piece = making.blob.add(alloc, key.as_bytes(), value.as_bytes())?;
    making.blob_bytes.extend_from_slice(piece.bytes.as_slice())?;
    let index = BlobIndex {
        file: BLOB,
        offset: piece.offset,
        size: value.len() as u64,
    };
    Ok(encode_index(alloc, &index)?)
}

// A table that is being made: its bytes, its first and its last key, and whether it names the blob file.
#[derive(Drop)]
struct Table {
    builder: TableBuilder,
    bytes: Vec<u8>,
    first: Option<Octets>,
    last: Option<Octets>,
    has_far: bool,
}

// The entry of a write joins the table.
fn add(
    alloc: Global,
    making: &mut Making,
    table: &mut Table,
    write: Write,
    seq: u64,
) -> Result<(), Fail> {
    let (key, put) = write;
    let text = value_of(alloc, key, seq)?;
    let (kind, value) = match put {
        Gone => (Kind::Deletion, Octets::from_slice(alloc, b"")?),
        Here => (Kind::Value, Octets::from_slice(alloc, text.as_bytes())?),
        Far => {
            table.has_far = true;
            (Kind::BlobRef, far(alloc, making, key, text.as_str())?)
        }
    };
    if key.is_empty() || key.len() > 100 || seq >> 56 != 0 {
        return Err(Fail::from("no key"));
    }
    let user = Octets::from_slice(alloc, key.as_bytes())?;
    let bytes = encode_key(alloc, &InternalKey { user, seq, kind })?;
    if bytes.as_slice().len() > 200 || value.as_slice().len() > 200 {
        return Err(Fail::from("too long"));
    }
    let piece = table.builder.add(bytes.as_slice(), value.as_slice())?;
    table.bytes.extend_from_slice(piece.as_slice())?;
    if table.first.is_none() {
        table.first = Some(Octets::from_slice(alloc, bytes.as_slice())?);
    }
    table.last = Some(bytes);
    Ok(())
}

// The field of a new table.
fn put_new_table(
    edit: &mut Vec<u8>,
    level: u32,
    number: u64,
    table: &Table,
    first: &Octets,
    last: &Octets,
) -> Result<(), Fail> {
    if first.as_slice().len() > 200 || last.as_slice().len() > 200 {
        return Err(Fail::from("too long"));
    }
    put_varint32(edit, 103)?;
    put_varint32(edit, level)?;
    put_varint64(edit, number)?;
    put_varint64(edit, table.bytes.len() as u64)?;
    put_slice(edit, first.as_slice())?;
    put_slice(edit, last.as_slice())?;
    // The sequences are not read.
    put_varint64(edit, 1)?;
    put_varint64(edit, 1)?;
    if table.has_far {
        put_varint32(edit, 4)?;
        put_varint32(edit, 1)?;
        put_varint64(edit, BLOB)?;
    }
    put_varint32(edit, 1)?;
    Ok(())
}

// The table of those of the writes whose keys are among these and whose sequences follow `older`, where there are some.
fn add_table(
    alloc: Global,
    making: &mut Making,
    place: (u32, u64),
    writes: &[Write],
    older: u64,
    keys: &[&str],
) -> Result<(), Fail> {
    let (level, number) = place;
    if number == 0 || number > 8 {
        return Err(Fail::from("no number"));
    }
    let mut table = Table {
        builder: TableBuilder::start(alloc),
        bytes: Vec::new(alloc),
        first: None,
        last: None,
        has_far: false,
    };
    for key in keys {
        let mut seq = older.wrapping_add(writes.len() as u64);
        for write in writes.iter().rev() {
            if write.0 == *key {
                add(alloc, making, &mut table, *write, seq)?;
            }
            seq = seq.wrapping_sub(1);
        }
    }
    table
        .bytes
        .extend_from_slice(table.builder.finish()?.as_slice())?;
    let name = format!(in alloc; "00000{number}.sst")?;
    if let (Some(first), Some(last)) = (&table.first, &table.last) {
        put_new_table(&mut making.edit, level, number, &table, first, last)?;
        making.site.put_file(name.as_str(), &table.bytes)?;
    }
    Ok(())
}

// The field of the blob file, which is closed.
fn close_blob(making: &mut Making) -> Result<(), Fail> {
    let (totals, footer) = making.blob.finish();
    if totals.count == 0 {
        return Ok(());
    }
    making.blob_bytes.extend_from_slice(&footer)?;
    making.site.put_file("000009.blob", &making.blob_bytes)?;
    put_varint32(&mut making.edit, 400)?;
    put_varint64(&mut making.edit, BLOB)?;
    put_varint64(&mut making.edit, totals.count)?;
    put_varint64(&mut making.edit, totals.bytes)?;
    put_slice(&mut making.edit, b"")?;
    put_slice(&mut making.edit, b"")?;
    put_varint32(&mut making.edit, 0)?;
    Ok(())
}

// The entry of a write in a memory.
fn entry_of(alloc: Global, write: Write, seq: u64) -> Result<Entry, Fail>
    ensures { IfOk result (λ e. e.key.seq ≡ seq) }
{
    let (key, put) = write;
    if key.is_empty() || key.len() > 100 || seq >> 56 != 0 {
        return Err(Fail::from("no key"));
    }
    let user = Octets::from_slice(alloc, key.as_bytes())?;
    let (kind, value) = match put {
        Gone => (Kind::Deletion, Octets::from_slice(alloc, b"")?),
        Here | Far => {
            let text = value_of(alloc, key, seq)?;
            (Kind::Value, Octets::from_slice(alloc, text.as_bytes())?)
        }
    };
    let key = InternalKey { user, seq, kind };
    Ok(Entry { key, value })
}

// The entry takes its place in the memory, whose entries have earlier sequences.
fn insert(memory: &mut MemTable, last: u64, entry: Entry) -> Result<(), Fail>
    requires filled { EntriesUpTo last memory.old }
    requires later { last < entry.key.seq }
    ensures { OnOk result (EntriesUpTo entry.key.seq memory.new) }
{
    later_is_free();
    memory.insert(entry)?;
    Ok(())
}

// The memory of writes whose sequences follow `older`.
fn memory_of(alloc: Global, writes: &[Write], older: u64) -> Result<MemTable, Fail> {
    let mut memory = MemTable::start(alloc);
    let mut last = older;
    'writes: for write in writes {
        if last > 1_000_000 {
            return Err(Fail::from("too many"));
        }
        let entry = entry_of(alloc, *write, last + 1)?;
        insert(&mut memory, last, entry)?;
        last += 1;
    }
    Ok(memory)
}

// So many of the writes behind those that are passed over.
fn part(writes: &[Write], from: usize, count: usize) -> &[Write] {
    let from = from.min(writes.len());
    let behind = &writes[from..];
    &behind[..count.min(behind.len())]
}

// The tables of the first two counts of writes, and those of level 0.
fn add_tables(
    alloc: Global,
    making: &mut Making,
    writes: &[Write],
    counts: Counts,
) -> Result<usize, Fail> {
    let [deep, upper, first, second, _, _] = counts;
    let mut from = 0usize;
    for (count, places) in [(deep, [(2, 1), (2, 2)]), (upper, [(1, 3), (1, 4)])] {
        let some = part(writes, from, count);
        let [low, high] = places;
        add_table(alloc, making, low, some, from as u64, &KEYS[..3])?;
        add_table(alloc, making, high, some, from as u64, &KEYS[3..])?;
        from = from.wrapping_add(count);
    }
    for (count, number) in [(first, 5), (second, 6)] {
        let some = part(writes, from, count);
        add_table(alloc, making, (0, number), some, from as u64, &KEYS)?;
        from = from.wrapping_add(count);
    }
    close_blob(making)?;
    Ok(from)
}

/// The folder, version and memories of the writes.
pub(crate) fn made_of(alloc: Global, writes: &[Write], counts: Counts) -> Result<Sample, Fail> {
    let mut making = Making {
        site: MemSite::start(alloc)?,
        edit: Vec::new(alloc),
        blob: BlobBuilder::start(),
        blob_bytes: Vec::new(alloc),
    };
    let from = add_tables(alloc, &mut making, writes, counts)?;
    let [_, _, _, _, waits, newest] = counts;
    let waiting = memory_of(alloc, part(writes, from, waits), from as u64)?;
    let from = from.wrapping_add(waits);
    let in_use = memory_of(alloc, part(writes, from, newest), from as u64)?;
    let edit = decode_edit(alloc, &making.edit)?;
    let version = apply(alloc, &Version::empty(alloc), &edit)?;
    Ok(Sample {
        site: making.site,
        version,
        waiting,
        in_use,
    })
}

/// Numbers that look random; the same ones each time.
#[derive(Drop)]
pub(crate) struct Random {
    state: u64,
}

impl Random {
    /// The numbers from a seed.
    pub(crate) fn from(seed: u64) -> Random {
        Random { state: seed }
    }

    /// The next one, below a limit that is not 0.
    pub(crate) fn below(&mut self, limit: u64) -> u64 {
        self.state = self
            .state
            .wrapping_mul(6_364_136_223_846_793_005)
            .wrapping_add(1_442_695_040_888_963_407);
        (self.state >> 33).checked_rem(limit).unwrap_or(0)
    }
}

// One of the keys, and what is written of it.
fn some_write(random: &mut Random) -> Write {
    let key = match random.below(6) {
        0 => "a",
        1 => "aa",
        2 => "b",
        3 => "b\u{0}",
        4 => "c",
        _ => "d",
    };
    let put = match random.below(5) {
        0 | 1 => Gone,
        2 => Here,
        _ => Far,
    };
    (key, put)
}

/// Writes, and how many are in each place.
pub(crate) fn some_writes(
    alloc: Global,
    random: &mut Random,
) -> Result<(Vec<Write>, Counts), Fail> {
    let mut writes = Vec::new(alloc);
    for _ in 0..24 {
        writes.push(some_write(random))?;
    }
    let counts = [
        random.below(9) as usize,
        random.below(7) as usize,
        random.below(5) as usize,
        random.below(5) as usize,
        random.below(5) as usize,
        24,
    ];
    Ok((writes, counts))
}
