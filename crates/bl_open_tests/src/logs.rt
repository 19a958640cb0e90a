//! Openings of folders whose logs hold batches.

use crate::folders::{folder, holds, opening, put};
use crate::samples::{
    BLOB, CURRENT, Change, LAST_VALUE, ONE_BLOB, SECOND_BATCH, TWO_BATCHES, change_file, damaged,
};
use bl_site_mem::MemSite;
use std::alloc::Global;
use std::test::Fail;

// The first edit of a fresh folder, in which values of at least 5 bytes go to blob files.
const FROM_FIVE: &str = "
    30 AC 4E 1F 3C 00 01 01 1A 6C 65 76 65 6C 64 62 2E 42 79 74 65 77 69 73 65 43 6F 6D 70 61 72 61 74 6F 72
    02 02 03 03 04 00 80 48 17 05 80 80 80 80 01 80 80 80 20 80 80 80 20 04 80 80 80 80 01 0A 19 64";

// What the flush of the two batches leaves.
const FLUSHED: [(&str, &str); 5] = [
    ("CURRENT", "4D 41 4E 49 46 45 53 54 2D 30 30 30 30 30 33 0A"),
    // The log 4, the next file 7, the last sequence 4, the table 5 and the blob file 6.
    (
        "MANIFEST-000003",
        "30 D0 CA 1C 63 00 01 01 1A 6C 65 76 65 6C 64 62 2E 42 79 74 65 77 69 73 65 43 6F 6D 70 61 72 61 74 6F 72
            02 04 03 07 04 04 80 48 17 03 80 80 80 80 01 80 80 80 20 80 80 80 20 04 80 80 80 80 01 0A 19 64
            67 00 05 82 01 09 61 11 03 00 00 00 00 00 00 09 62 00 04 00 00 00 00 00 00 03 04 04 01 06 01
            90 03 06 01 25 00 00 00",
    ),
    ("000004.log", ""),
    // `a`, whose value is in the blob file, and the deletion of `b`.
    (
        "000005.sst",
        "00 09 05 61 11 03 00 00 00 00 00 00 01 06 3F 04 00 00 09 00 62 00 04 00 00 00 00 00 00
            00 00 00 00 01 00 00 00 00 10 0E 6F B8 00 00 00 00 01 00 00 00 00 C0 F2 A1 B0
            00 09 02 62 00 04 00 00 00 00 00 00 00 25 00 00 00 00 01 00 00 00 00 36 C7 C9 5A
            2A 08 37 16 00 00 00 00 00 00 00 00 00 00 00 00 00 00 00 00 00 00 00 00 00 00 00 00 00 00 00 00 00 00 00 00
            00 00 00 00 57 FB 80 8B 24 75 47 DB",
    ),
    ("000006.blob", LAST_VALUE),
];

#[test]
fn two_batches_are_flushed(rt: HostRuntime) -> Result<(), Fail> {
    let alloc = rt.alloc();
    let mut site = folder(alloc, &TWO_BATCHES)?;
    assert_eq!(rt; opening(alloc, &mut site)?.as_str(), "opened 3 4 7 4");
    for (name, text) in FLUSHED {
        assert!(rt; holds(alloc, &site, name, text)?, "{name}");
    }
    assert_eq!(rt; opening(alloc, &mut site)?.as_str(), "opened 7 8 9 4");
    Ok(())
}

#[test]
fn small_values_stay_in_the_table(rt: HostRuntime) -> Result<(), Fail> {
    let alloc = rt.alloc();
    let mut site = folder(alloc, &TWO_BATCHES)?;
    put(alloc, &mut site, "MANIFEST-000001", FROM_FIVE)?;
    assert_eq!(rt; opening(alloc, &mut site)?.as_str(), "opened 3 4 6 4");
    assert!(rt;
        holds(
            alloc,
            &site,
            "000005.sst",
            "00 09 04 61 01 03 00 00 00 00 00 00 77 78 79 7A 00 09 00 62 00 04 00 00 00 00 00 00
            00 00 00 00 01 00 00 00 00 B6 37 97 6F 00 00 00 00 01 00 00 00 00 C0 F2 A1 B0
            00 09 02 62 00 04 00 00 00 00 00 00 00 24 00 00 00 00 01 00 00 00 00 CA 35 90 F1
            29 08 36 16 00 00 00 00 00 00 00 00 00 00 00 00 00 00 00 00 00 00 00 00 00 00 00 00 00 00 00 00 00 00 00 00
            00 00 00 00 57 FB 80 8B 24 75 47 DB"
        )?
    );
    assert!(rt; site.file("000006.blob").is_none());
    Ok(())
}

// What an opening answers once this is done to the log of two batches.
fn opened_with(alloc: Global, change: Change) -> Result<(String, MemSite), Fail> {
    let mut site = folder(alloc, &TWO_BATCHES)?;
    change_file(alloc, &mut site, "000002.log", change)?;
    let answer = opening(alloc, &mut site)?;
    Ok((answer, site))
}

#[test]
fn torn_tails_of_logs(rt: HostRuntime) -> Result<(), Fail> {
    let alloc = rt.alloc();
    for (change, want) in [
        // Nothing of the first batch is left whole.
        (Change::Front(0), "opened 3 4 5 0"),
        (Change::Front(31), "opened 3 4 5 0"),
        (Change::From(0, "00"), "opened 3 4 5 0"),
        // The first batch, and nothing of the second.
        (Change::Front(32), "opened 3 4 7 2"),
        (Change::Front(38), "opened 3 4 7 2"),
        (Change::Front(61), "opened 3 4 7 2"),
        (Change::From(61, "63"), "opened 3 4 7 2"),
        // Both, and bytes behind them.
        (
            Change::From(62, "00 00 00 00 00 00 00 00 00 00"),
            "opened 3 4 7 4",
        ),
    ] {
        let (answer, _) = opened_with(alloc, change)?;
        assert_eq!(rt; answer.as_str(), want, "{change:?}");
    }
    let (_, site) = opened_with(alloc, Change::Front(61))?;
    assert!(rt; holds(alloc, &site, "000006.blob", BLOB)?);
    let (_, site) = opened_with(alloc, Change::Front(31))?;
    assert!(rt; site.file("000005.sst").is_none());
    Ok(())
}

#[test]
fn logs_are_read_in_order(rt: HostRuntime) -> Result<(), Fail> {
    let alloc = rt.alloc();
    for (change, want) in [
        // A batch in each of two logs: the first log is whole, has a torn tail, or has torn its batch.
        (Change::Front(32), "opened 5 6 9 4"),
        (Change::Front(40), "opened 5 6 9 4"),
        (Change::Front(31), "corrupt 000004.log 30"),
    ] {
        let mut site = folder(alloc, &TWO_BATCHES)?;
        change_file(alloc, &mut site, "000002.log", change)?;
        put(alloc, &mut site, "000004.log", SECOND_BATCH)?;
        assert_eq!(rt; opening(alloc, &mut site)?.as_str(), want, "{change:?}");
    }
    Ok(())
}

// The log of one batch, `a` with `xyz`, of the sequence 1.
const ONE_BATCH: &str =
    "BD 0D 51 02 13 00 01 01 00 00 00 00 00 00 00 01 00 00 00 01 01 61 03 78 79 7A";

#[test]
fn either_side_of_an_edit(rt: HostRuntime) -> Result<(), Fail> {
    // The flush is in the manifest, so that the log is not read; it is not, so that it is flushed anew.
    let alloc = rt.alloc();
    let mut flushed = folder(alloc, &ONE_BLOB)?;
    put(alloc, &mut flushed, "000002.log", ONE_BATCH)?;
    assert_eq!(rt; opening(alloc, &mut flushed)?.as_str(), "opened 6 7 8 1");

    let mut logged = damaged(alloc, &[("MANIFEST-000001", Change::Front(67))])?;
    put(alloc, &mut logged, "000002.log", ONE_BATCH)?;
    assert_eq!(rt; opening(alloc, &mut logged)?.as_str(), "opened 6 7 10 1");
    assert!(rt; holds(alloc, &logged, "000009.blob", BLOB)?);
    assert!(rt;
        holds(
            alloc,
            &logged,
            "000008.sst",
            "00 09 05 61 11 01 00 00 00 00 00 00 01 09 3F 03 00 00 00 00 00 01 00 00 00 00 C1 C1 46 C1
            00 00 00 00 01 00 00 00 00 C0 F2 A1 B0
            00 09 02 61 11 01 00 00 00 00 00 00 00 19 00 00 00 00 01 00 00 00 00 CE DB EA 86
            1E 08 2B 16 00 00 00 00 00 00 00 00 00 00 00 00 00 00 00 00 00 00 00 00 00 00 00 00 00 00 00 00
            00 00 00 00 00 00 00 00 57 FB 80 8B 24 75 47 DB"
        )?
    );
    Ok(())
}

// First edits of the last sequences 2^56 - 1 and 2^56 - 2.
const LAST_OF_ALL: &str = "
    0D ED BD 87 43 00 01 01 1A 6C 65 76 65 6C 64 62 2E 42 79 74 65 77 69 73 65 43 6F 6D 70 61 72 61 74 6F 72
    02 02 03 03 04 FF FF FF FF FF FF FF 7F 80 48 17 00 80 80 80 80 01 80 80 80 20 80 80 80 20 04 80 80 80 80 01 0A 19 64";

const LAST_BUT_ONE: &str = "
    B4 EA 1C 95 43 00 01 01 1A 6C 65 76 65 6C 64 62 2E 42 79 74 65 77 69 73 65 43 6F 6D 70 61 72 61 74 6F 72
    02 02 03 03 04 FE FF FF FF FF FF FF 7F 80 48 17 00 80 80 80 80 01 80 80 80 20 80 80 80 20 04 80 80 80 80 01 0A 19 64";

#[test]
fn the_greatest_sequence(rt: HostRuntime) -> Result<(), Fail> {
    let alloc = rt.alloc();
    for (manifest, log, want) in [
        // The manifest has it as its last sequence, and the log is empty, or has a batch behind it.
        (LAST_OF_ALL, "", "opened 3 4 5 72057594037927935"),
        (
            LAST_OF_ALL,
            "4C 87 83 DB 11 00 01 00 00 00 00 00 00 00 01 01 00 00 00 01 01 61 01 31",
            "corrupt 000002.log 24",
        ),
        // The log has it.
        (
            LAST_BUT_ONE,
            "8B FF 3A 52 11 00 01 FF FF FF FF FF FF FF 00 01 00 00 00 01 01 61 01 31",
            "opened 3 4 7 72057594037927935",
        ),
    ] {
        let mut site = folder(
            alloc,
            &[
                ("CURRENT", CURRENT),
                ("MANIFEST-000001", manifest),
                ("000002.log", log),
            ],
        )?;
        assert_eq!(rt; opening(alloc, &mut site)?.as_str(), want, "{log}");
    }
    Ok(())
}
