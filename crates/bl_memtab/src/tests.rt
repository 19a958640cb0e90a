// Tables that are filled out of order, and each call, with expected answers by hand.

ghost use Rattle.std.specs.Prelude.{◌≡◌, ◌<◌, ◌≤◌, ◌^◌, false, length};
ghost use Rattle.bl_memtab.specs.Tables.{IsFree};

use crate::{MemTable, ascends};
use bl_code::Octets;
use bl_entry::{Entry, InternalKey, Kind};
use std::alloc::Global;
use std::test::Fail;

fn key_of(alloc: Global, user: &[u8], seq: u64, kind: Kind) -> Result<InternalKey, Fail>
    requires some { 1 ≤ length user.now }
    requires no_longer { length user.now ≤ 65535 }
    requires fits { seq < 2 ^ 56 }
{
    match Octets::from_slice(alloc, user) {
        Ok(user) => Ok(InternalKey { user, seq, kind }),
        Err(_) => Err("no memory".into()),
    }
}

fn has_key(table: &MemTable, key: &InternalKey) -> bool
    ensures { result ≡ false → IsFree key.now table.now }
{
    ascends(table);
    match table.after(key, false) {
        Some(found) => found.key == *key,
        None => false,
    }
}

// Inserts, where the key is not there.
fn add(
    alloc: Global,
    table: &mut MemTable,
    user: &[u8],
    seq: u64,
    kind: Kind,
    value: &[u8],
) -> Result<(), Fail>
    requires some { 1 ≤ length user.now }
    requires no_longer { length user.now ≤ 65535 }
    requires fits { seq < 2 ^ 56 }
{
    let key = key_of(alloc, user, seq, kind)?;
    if has_key(table, &key) {
        return Err("there".into());
    }
    let Ok(value) = Octets::from_slice(alloc, value) else {
        return Err("no memory".into());
    };
    match table.insert(Entry { key, value }) {
        Ok(()) => Ok(()),
        Err(_) => Err("no memory".into()),
    }
}

// The sequence that is found of a key; 0 where none is.
fn latest_seq(table: &MemTable, key: &[u8], seq: u64) -> u64 {
    match table.latest(key, seq) {
        Some(entry) => entry.key.seq,
        None => 0,
    }
}

fn has_value(found: Option<&Entry>, value: &[u8]) -> bool {
    match found {
        Some(entry) => entry.value.as_slice() == value,
        None => false,
    }
}

// The sequence of the entry from a key on; 0 where there is none.
fn next_seq(
    alloc: Global,
    table: &MemTable,
    user: &[u8],
    seq: u64,
    strict: bool,
) -> Result<u64, Fail>
    requires some { 1 ≤ length user.now }
    requires no_longer { length user.now ≤ 65535 }
    requires fits { seq < 2 ^ 56 }
{
    let from = key_of(alloc, user, seq, Kind::Value)?;
    match table.after(&from, strict) {
        Some(entry) => Ok(entry.key.seq),
        None => Ok(0),
    }
}

// a at 9, 5 and 2, b at 7 (a deletion), and d at 3.
fn filled(alloc: Global) -> Result<MemTable, Fail> {
    let mut table = MemTable::start(alloc);
    add(alloc, &mut table, b"b", 7, Kind::Deletion, b"")?;
    add(alloc, &mut table, b"a", 5, Kind::Value, b"five")?;
    add(alloc, &mut table, b"d", 3, Kind::Value, b"d3")?;
    add(alloc, &mut table, b"a", 9, Kind::Value, b"nine")?;
    add(alloc, &mut table, b"a", 2, Kind::Value, b"")?;
    Ok(table)
}

#[test]
fn a_key_is_read_at_each_sequence(rt: HostRuntime) -> Result<(), Fail> {
    let table = filled(rt.alloc())?;
    let all = 18_446_744_073_709_551_615;
    for (seq, found) in [(1, 0), (2, 2), (4, 2), (5, 5), (8, 5), (9, 9), (all, 9)] {
        assert_eq!(rt; latest_seq(&table, b"a", seq), found);
    }
    for (seq, found) in [(6, 0), (7, 7), (8, 7)] {
        assert_eq!(rt; latest_seq(&table, b"b", seq), found);
    }
    Ok(())
}

#[test]
fn a_key_that_is_not_there_is_not_found(rt: HostRuntime) -> Result<(), Fail> {
    let table = filled(rt.alloc())?;
    assert_eq!(rt; latest_seq(&table, b"", 9), 0);
    assert_eq!(rt; latest_seq(&table, b"c", 9), 0);
    assert_eq!(rt; latest_seq(&table, b"e", 9), 0);
    Ok(())
}

#[test]
fn values_are_read(rt: HostRuntime) -> Result<(), Fail> {
    let table = filled(rt.alloc())?;
    assert!(rt; has_value(table.latest(b"a", 8), b"five"));
    assert!(rt; has_value(table.latest(b"a", 9), b"nine"));
    assert!(rt; has_value(table.latest(b"b", 9), b""));
    Ok(())
}

#[test]
fn entries_follow_each_other(rt: HostRuntime) -> Result<(), Fail> {
    let table = filled(rt.alloc())?;
    for (seq, here, behind) in [
        (10, 9, 9),
        (9, 9, 5),
        (6, 5, 5),
        (5, 5, 2),
        (2, 2, 7),
        (1, 7, 7),
    ] {
        assert_eq!(rt; next_seq(rt.alloc(), &table, b"a", seq, false)?, here);
        assert_eq!(rt; next_seq(rt.alloc(), &table, b"a", seq, true)?, behind);
    }
    Ok(())
}

#[test]
fn the_last_entries_are_followed(rt: HostRuntime) -> Result<(), Fail> {
    let table = filled(rt.alloc())?;
    assert_eq!(rt; next_seq(rt.alloc(), &table, b"c", 1, false)?, 3);
    assert_eq!(rt; next_seq(rt.alloc(), &table, b"d", 3, false)?, 3);
    assert_eq!(rt; next_seq(rt.alloc(), &table, b"d", 3, true)?, 0);
    Ok(())
}

#[test]
fn entries_are_counted(rt: HostRuntime) -> Result<(), Fail> {
    let table = filled(rt.alloc())?;
    assert_eq!(rt; table.count(), 5);
    assert_eq!(rt; table.bytes(), 9 + 13 + 11 + 13 + 9);
    Ok(())
}

// Of two entries of one key and sequence the one of the greater kind stands first.
#[test]
fn kinds_of_one_sequence_are_in_order(rt: HostRuntime) -> Result<(), Fail> {
    let alloc = rt.alloc();
    let mut table = MemTable::start(alloc);
    add(alloc, &mut table, b"a", 4, Kind::Deletion, b"")?;
    add(alloc, &mut table, b"a", 4, Kind::Value, b"put")?;
    assert!(rt; has_value(table.latest(b"a", 4), b"put"));
    Ok(())
}

// Each of 4,000 keys at a sequence of its own, out of order, so that rows become two in many places.
fn add_many(alloc: Global, table: &mut MemTable, first: u64) -> Result<(), Fail>
    requires { first < 2 ^ 32 }
{
    for i in 0..4_000u16 {
        let user = i.wrapping_mul(7_919).to_be_bytes();
        add(
            alloc,
            table,
            &user,
            first + u64::from(i),
            Kind::Value,
            b"value",
        )?;
    }
    Ok(())
}

#[test]
fn many_entries_are_found(rt: HostRuntime) -> Result<(), Fail> {
    let mut table = MemTable::start(rt.alloc());
    add_many(rt.alloc(), &mut table, 1)?;
    add_many(rt.alloc(), &mut table, 10_000)?;
    assert_eq!(rt; table.count(), 8_000);
    assert_eq!(rt; table.bytes(), 8_000 * (2 + 8 + 5));
    for i in 0..4_000u16 {
        let user = i.wrapping_mul(7_919).to_be_bytes();
        let seq = 1 + u64::from(i);
        assert_eq!(rt; latest_seq(&table, &user, seq - 1), 0);
        assert_eq!(rt; latest_seq(&table, &user, 9_999), seq);
        assert_eq!(rt; latest_seq(&table, &user, 9_999 + seq), 9_999 + seq);
    }
    Ok(())
}

// One key that is written 3,000 times, between two others.
#[test]
fn one_key_is_written_again_and_again(rt: HostRuntime) -> Result<(), Fail> {
    let alloc = rt.alloc();
    let mut table = MemTable::start(alloc);
    add(alloc, &mut table, b"j", 1, Kind::Value, b"")?;
    add(alloc, &mut table, b"l", 5_000, Kind::Value, b"")?;
    for i in 1..3_001u64 {
        add(alloc, &mut table, b"k", i, Kind::Value, b"")?;
    }
    for i in 1..3_001u64 {
        assert_eq!(rt; latest_seq(&table, b"k", i), i);
    }
    assert_eq!(rt; next_seq(alloc, &table, b"k", 1, true)?, 5_000);
    assert_eq!(rt; next_seq(alloc, &table, b"j", 1, true)?, 3_000);
    Ok(())
}
