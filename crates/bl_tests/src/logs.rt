//! Batches that are written to a log, and replayed.

ghost use Rattle.std.specs.Prelude.{◌≤◌, length, IfOk};

use bl_entry::Batch;
use bl_site_mem::MemSite;
use bl_wal::{Replayed, Wal, WalErr, replay};
use std::alloc::Global;
use std::test::Fail;

fn failed(error: WalErr) -> Fail {
    match error {
        WalErr::Disk => Fail::from("disk"),
        WalErr::Corrupt(_, _) => Fail::from("corrupt"),
        WalErr::OutOfMemory => Fail::from("memory"),
    }
}

// The size of a file, or none where it is not there.
fn size_of(site: &MemSite, name: &str) -> Option<usize> {
    match site.file(name) {
        Some(bytes) => Some(bytes.len()),
        None => None,
    }
}

// The place at which a log is damaged.
fn place_of(answer: Result<Replayed, WalErr>) -> Option<u64> {
    match answer {
        Err(WalErr::Corrupt(_, place)) => Some(place),
        Ok(_) => None,
        Err(WalErr::Disk) => None,
        Err(WalErr::OutOfMemory) => None,
    }
}

// The last sequence and the count of the entries that the log restores.
fn restored(alloc: Global, site: &mut MemSite) -> Result<(u64, usize), Fail> {
    match replay(alloc, site, 2, 0) {
        Ok(replayed) => Ok((replayed.last, replayed.entries.as_slice().len())),
        Err(error) => Err(failed(error)),
    }
}

// The last sequence that a cut leaves.
fn last_of_cut(
    alloc: Global,
    site: &MemSite,
    at: u64,
    keep: u64,
    fill: Option<u8>,
) -> Result<u64, Fail> {
    let mut cut = site.cut(at, keep, fill)?;
    let (last, _) = restored(alloc, &mut cut)?;
    Ok(last)
}

fn put_of(alloc: Global, key: &[u8], value: &[u8]) -> Result<Batch, Fail>
    ensures { IfOk result (λ batch. length batch ≤ 1) }
{
    let mut batch = Batch::start(alloc);
    batch.put(key, value)?;
    Ok(batch)
}

fn put_and_deletion(alloc: Global) -> Result<Batch, Fail>
    ensures { IfOk result (λ batch. length batch ≤ 2) }
{
    let mut batch = put_of(alloc, b"b", b"")?;
    batch.del(b"a")?;
    Ok(batch)
}

// A log of two batches.
fn log_of(alloc: Global, first: &Batch, second: &Batch) -> Result<MemSite, Fail>
    requires first { length first.now ≤ 2 }
    requires second { length second.now ≤ 2 }
{
    let mut site = MemSite::start(alloc)?;
    let mut wal = Wal::create(alloc, &mut site, 2).map_err(failed)?;
    wal.append(alloc, &mut site, 1, first).map_err(failed)?;
    wal.append(alloc, &mut site, 2, second).map_err(failed)?;
    Ok(site)
}

// A log with two batches, the second of which has two operations.
fn written(alloc: Global) -> Result<MemSite, Fail> {
    let first = put_of(alloc, b"a", b"xyz")?;
    let second = put_and_deletion(alloc)?;
    log_of(alloc, &first, &second)
}

#[test]
fn batches_are_replayed(rt: HostRuntime) -> Result<(), Fail> {
    let mut site = written(rt.alloc())?;
    assert_eq!(rt; size_of(&site, "000002.log"), Some(26 + 7 + 12 + 4 + 3));
    assert_eq!(rt; restored(rt.alloc(), &mut site)?, (3, 3));
    Ok(())
}

#[test]
fn logs_that_are_not_replayed(rt: HostRuntime) -> Result<(), Fail> {
    let mut site = written(rt.alloc())?;
    // The log that is not there, and the first record, which does not begin behind 1.
    assert_eq!(rt; place_of(replay(rt.alloc(), &mut site, 7, 0)), Some(0));
    assert_eq!(rt; place_of(replay(rt.alloc(), &mut site, 2, 1)), Some(26));
    Ok(())
}

// The last sequence that a cut of the appends leaves, which keeps so many bytes of the log.
fn last_of_written(alloc: Global, keep: u64) -> Result<u64, Fail> {
    let site = written(alloc)?;
    last_of_cut(alloc, &site, 3, keep, None)
}

#[test]
fn a_torn_batch_is_not_replayed(rt: HostRuntime) -> Result<(), Fail> {
    for (keep, last) in [(25, 0), (26, 1), (51, 1), (52, 3)] {
        assert_eq!(rt; last_of_written(rt.alloc(), keep)?, last, "{keep} bytes");
    }
    Ok(())
}

// A log of two batches, the first of which is synced.
fn synced_log_of(alloc: Global, first: &Batch, second: &Batch) -> Result<MemSite, Fail>
    requires first { length first.now ≤ 2 }
    requires second { length second.now ≤ 2 }
{
    let mut site = MemSite::start(alloc)?;
    let mut wal = Wal::create(alloc, &mut site, 2).map_err(failed)?;
    wal.append(alloc, &mut site, 1, first).map_err(failed)?;
    wal.sync(&mut site).map_err(failed)?;
    wal.append(alloc, &mut site, 2, second).map_err(failed)?;
    if wal.failed() {
        return Err(Fail::from("failed"));
    }
    Ok(site)
}

// A log with a batch that is synced, and one that is not.
fn synced(alloc: Global) -> Result<MemSite, Fail> {
    let first = put_of(alloc, b"a", b"1")?;
    let second = put_of(alloc, b"b", b"2")?;
    synced_log_of(alloc, &first, &second)
}

// The last sequence that a cut leaves of that log.
fn last_of_synced(alloc: Global, at: u64, keep: u64, fill: Option<u8>) -> Result<u64, Fail> {
    let site = synced(alloc)?;
    last_of_cut(alloc, &site, at, keep, fill)
}

#[test]
fn a_synced_batch_is_in_every_cut(rt: HostRuntime) -> Result<(), Fail> {
    for (at, keep, fill, last) in [
        (3, 0, None, 1),
        (4, 0, None, 1),
        (4, 1, Some(0x5A), 1),
        (4, 23, Some(0x5A), 1),
        (4, 24, None, 2),
    ] {
        assert_eq!(rt;
            last_of_synced(rt.alloc(), at, keep, fill)?,
            last,
            "call {at}, {keep} bytes"
        );
    }
    Ok(())
}
