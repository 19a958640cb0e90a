//! Openings some call of whose folder fails, or that a power cut ends: the next opening comes to the same pairs.

use crate::folders::{NOTHING, bytes_of, failing_folder, folder, holds, opening};
use crate::samples::{Change, LAST_VALUE, SECOND_BATCH, TWO_BATCHES, change_file};
use bl_open::{Opened, recover};
use bl_site_mem::MemSite;
use bl_table::read_table;
use std::alloc::Global;
use std::test::Fail;

// The internal keys of `a` with a value in a blob file, and of the deletion of `b`.
const KEYS: [[u8; 9]; 2] = [
    [b'a', 0x11, 3, 0, 0, 0, 0, 0, 0],
    [b'b', 0, 4, 0, 0, 0, 0, 0, 0],
];

// Whether the table is of these keys, the value of the first of which is at 63 in this blob file, with 4 bytes.
fn names_value(alloc: Global, bytes: &[u8], blob: u64) -> Result<bool, Fail> {
    let Ok(blob) = u8::try_from(blob) else {
        return Ok(false);
    };
    let entries = read_table(alloc, bytes)?;
    let Some(put) = entries.first() else {
        return Ok(false);
    };
    let Some(deletion) = entries.last() else {
        return Ok(false);
    };
    Ok(
        entries.len() == 2
            && put.key.as_slice() == KEYS[0].as_slice()
            && put.value.as_slice() == [1, blob, 63, 4, 0].as_slice()
            && deletion.key.as_slice() == KEYS[1].as_slice()
            && deletion.value.as_slice().is_empty(),
    )
}

// Whether the blob file of this number has the value, and the table names it.
fn has_pair(alloc: Global, site: &MemSite, table: u64, blob: u64) -> Result<bool, Fail> {
    let blob_name = format!(in alloc; "{blob:06}.blob")?;
    let table_name = format!(in alloc; "{table:06}.sst")?;
    let Some(bytes) = site.file(table_name.as_str()) else {
        return Ok(false);
    };
    Ok(holds(alloc, site, blob_name.as_str(), LAST_VALUE)? && names_value(alloc, bytes, blob)?)
}

// The numbers of the table and of the blob file of a store that has one of each.
fn only_files(opened: &Opened) -> Option<(u64, u64)> {
    let tables = opened.version.tables(0);
    let blobs = opened.version.blobs();
    if tables.len() != 1 || blobs.len() != 1 {
        return None;
    }
    Some((tables.first()?.number, blobs.first()?.number))
}

// Whether an opening comes to `a` with `wxyz` alone.
fn opens_to_the_pair(alloc: Global, site: &mut MemSite) -> Result<bool, Fail> {
    let Ok(opened) = recover(alloc, site, &NOTHING) else {
        return Ok(false);
    };
    let Some((table, blob)) = only_files(&opened) else {
        return Ok(false);
    };
    Ok(opened.standing.last_sequence == 4 && has_pair(alloc, site, table, blob)?)
}

// Whether an opening comes to no pair.
fn opens_to_nothing(alloc: Global, site: &mut MemSite) -> Result<bool, Fail> {
    let Ok(opened) = recover(alloc, site, &NOTHING) else {
        return Ok(false);
    };
    Ok(opened.standing.last_sequence == 0 && opened.version.tables(0).is_empty())
}

#[test]
fn each_call_that_fails(rt: HostRuntime) -> Result<(), Fail> {
    let alloc = rt.alloc();
    let mut clean = folder(alloc, &TWO_BATCHES)?;
    assert_eq!(rt; opening(alloc, &mut clean)?.as_str(), "opened 3 4 7 4");
    // It lists, reads CURRENT, the manifest and the log, and syncs the last two; it makes, writes and syncs the table, the blob
    // file, the manifest and CURRENT's text, makes the log, and renames.
    assert!(rt; clean.calls() >= 20);
    for call in 1..=clean.calls() {
        let mut site = failing_folder(alloc, &TWO_BATCHES, &[call])?;
        assert_eq!(rt; opening(alloc, &mut site)?.as_str(), "disk", "call {call}");
        let mut cut = site.cut(call, 0, None)?;
        assert!(rt; opens_to_the_pair(alloc, &mut site)?, "call {call}");
        assert!(rt;
            opens_to_the_pair(alloc, &mut cut)?,
            "a cut behind call {call}"
        );
    }
    Ok(())
}

#[test]
fn each_cut(rt: HostRuntime) -> Result<(), Fail> {
    let alloc = rt.alloc();
    let mut clean = folder(alloc, &TWO_BATCHES)?;
    assert_eq!(rt; opening(alloc, &mut clean)?.as_str(), "opened 3 4 7 4");
    for at in 0..=clean.calls() {
        for (keep, fill) in [(0, None), (5, None), (5, Some(0x5A)), (1000, None)] {
            let mut cut = clean.cut(at, keep, fill)?;
            assert!(rt;
                opens_to_the_pair(alloc, &mut cut)?,
                "call {at}, {keep} bytes"
            );
        }
    }
    Ok(())
}

#[test]
fn each_call_in_a_fresh_folder(rt: HostRuntime) -> Result<(), Fail> {
    let alloc = rt.alloc();
    let mut clean = folder(alloc, &[])?;
    assert_eq!(rt; opening(alloc, &mut clean)?.as_str(), "opened 1 2 3 0");
    for call in 1..=clean.calls() {
        let mut site = failing_folder(alloc, &[], &[call])?;
        assert_eq!(rt; opening(alloc, &mut site)?.as_str(), "disk", "call {call}");
        assert!(rt; opens_to_nothing(alloc, &mut site)?, "call {call}");
        for fill in [None, Some(0x5A)] {
            let mut cut = clean.cut(call, 5, fill)?;
            assert!(rt;
                opens_to_nothing(alloc, &mut cut)?,
                "a cut behind call {call}"
            );
        }
    }
    Ok(())
}

// A store in whose log the second batch is not synced; the call 1 appended it.
fn not_synced(alloc: Global) -> Result<MemSite, Fail> {
    let mut site = folder(alloc, &TWO_BATCHES)?;
    change_file(alloc, &mut site, "000002.log", Change::Front(32))?;
    let batch = bytes_of(alloc, SECOND_BATCH)?;
    site.append("000002.log", &batch)?;
    Ok(site)
}

// The last sequence that an opening finds.
fn last_of(alloc: Global, site: &mut MemSite) -> Result<u64, Fail> {
    match recover(alloc, site, &NOTHING) {
        Ok(opened) => Ok(opened.standing.last_sequence),
        Err(_) => Err(Fail::from("not opened")),
    }
}

#[test]
fn a_log_is_synced_before_a_file_is_made(rt: HostRuntime) -> Result<(), Fail> {
    let alloc = rt.alloc();
    let mut site = not_synced(alloc)?;
    assert_eq!(rt; last_of(alloc, &mut site.cut(1, 0, None)?)?, 2);
    assert_eq!(rt; opening(alloc, &mut site)?.as_str(), "opened 3 4 7 4");
    for at in 1..=site.calls() {
        let mut cut = site.cut(at, 0, None)?;
        let made = cut.file("000005.sst").is_some();
        let last = last_of(alloc, &mut cut)?;
        assert!(rt; last == 4 || last == 2 && !made, "call {at}");
    }
    assert_eq!(rt; last_of(alloc, &mut site.cut(u64::MAX, 0, None)?)?, 4);
    Ok(())
}
