//! What an opening answers on a damaged folder, which it leaves as it was.

use crate::folders::{opening, refusal};
use crate::samples::Change::{self, Absent, From, Front, Whole};
use crate::samples::damaged;
use std::alloc::Global;
use std::test::Fail;

// What an opening answers once this is done to the files of a store. The folder reads as before then.
fn refused(alloc: Global, changes: &[(&str, Change)]) -> Result<String, Fail> {
    let mut site = damaged(alloc, changes)?;
    let (answer, same) = refusal(alloc, &mut site)?;
    if !same {
        return Err(Fail::from("the folder has changed"));
    }
    Ok(answer)
}

// What an opening answers once this is done to a file of a store.
fn refused_for(alloc: Global, name: &str, change: Change) -> Result<String, Fail> {
    refused(alloc, &[(name, change)])
}

#[test]
fn texts_of_current(rt: HostRuntime) -> Result<(), Fail> {
    let alloc = rt.alloc();
    // No byte; no newline; a newline too many; `MANIFEST-1`; `MANIFEST-000000`.
    for text in [
        "",
        "4D 41 4E 49 46 45 53 54 2D 30 30 30 30 30 31",
        "4D 41 4E 49 46 45 53 54 2D 30 30 30 30 30 31 0A 0A",
        "4D 41 4E 49 46 45 53 54 2D 31 0A",
        "4D 41 4E 49 46 45 53 54 2D 30 30 30 30 30 30 0A",
    ] {
        let answer = refused_for(alloc, "CURRENT", Whole(text))?;
        assert_eq!(rt; answer.as_str(), "corrupt CURRENT 0", "{text}");
    }
    // It names the manifest 5, which is absent.
    let five = Whole("4D 41 4E 49 46 45 53 54 2D 30 30 30 30 30 35 0A");
    let answer = refused_for(alloc, "CURRENT", five)?;
    assert_eq!(rt; answer.as_str(), "corrupt MANIFEST-000005 0");
    Ok(())
}

// Files that are absent, or of another length.
const LENGTHS: [(&str, Change, &str); 9] = [
    ("MANIFEST-000001", Absent, "corrupt MANIFEST-000001 0"),
    ("000004.sst", Absent, "corrupt 000004.sst 0"),
    ("000004.sst", Front(0), "corrupt 000004.sst 0"),
    ("000004.sst", Front(117), "corrupt 000004.sst 0"),
    ("000004.sst", From(118, "00"), "corrupt 000004.sst 0"),
    ("000005.blob", Absent, "corrupt 000005.blob 0"),
    ("000005.blob", Front(0), "corrupt 000005.blob 0"),
    ("000005.blob", Front(97), "corrupt 000005.blob 0"),
    ("000005.blob", From(98, "00"), "corrupt 000005.blob 0"),
];

#[test]
fn absent_files_and_other_lengths(rt: HostRuntime) -> Result<(), Fail> {
    let alloc = rt.alloc();
    for (name, change, want) in LENGTHS {
        let answer = refused_for(alloc, name, change)?;
        assert_eq!(rt; answer.as_str(), want, "{name} {change:?}");
    }
    Ok(())
}

// A third edit in the manifest, and the place of the fault.
const THIRD_EDITS: [(Change, u64); 7] = [
    // A third record: an unknown tag, and a level too deep.
    (From(118, "F3 1A E2 33 02 00 01 05 00"), 127),
    (From(118, "A0 DD E8 34 03 00 01 06 07 04"), 128),
    // A third edit that does not fit: the table 4 once more, and not where it was; garbage of no blob file, and too much.
    (
        From(
            118,
            "35 9C 12 50 1E 00 01 67 00 04 76 09 61 11 01 00 00 00 00 00 00 09 61 11 01 00 00 00 00 00 00 01 01 04 01 05 01",
        ),
        155,
    ),
    (From(118, "2E 0C 84 D2 03 00 01 06 01 04"), 128),
    (From(118, "B8 0E 04 35 06 00 01 91 03 06 01 22 00"), 131),
    (From(118, "3B 31 37 4F 06 00 01 91 03 05 02 48 00"), 131),
    // The next file number 10^15 + 1.
    (
        From(118, "E3 79 DE 1A 09 00 01 03 81 80 9A A6 EA AF E3 01"),
        134,
    ),
];

#[test]
fn third_edits(rt: HostRuntime) -> Result<(), Fail> {
    let alloc = rt.alloc();
    for (change, place) in THIRD_EDITS {
        let answer = refused_for(alloc, "MANIFEST-000001", change)?;
        let want = format!(in alloc; "corrupt MANIFEST-000001 {place}")?;
        assert_eq!(rt; answer.as_str(), want.as_str(), "{change:?}");
    }
    Ok(())
}

// Manifests that do not know all, and the place of the fault.
const LACKING_MANIFESTS: [(Change, u64); 8] = [
    // No record; none that is whole; the second one alone, which knows no options.
    (Front(0), 0),
    (Front(60), 0),
    (
        Whole(
            "FF A7 72 5B 2C 00 01 02 03 03 06 04 01 67 00 04 76 09 61 11 01 00 00 00 00 00 00 09 61 11 01 00 00 00 00 00 00
                01 01 04 01 05 01 90 03 05 01 24 00 00 00",
        ),
        51,
    ),
    // An edit without options, the last sequence, the next file number, the log number, or the comparator.
    (
        Whole(
            "53 26 FE 5B 22 00 01 01 1A 6C 65 76 65 6C 64 62 2E 42 79 74 65 77 69 73 65 43 6F 6D 70 61 72 61 74 6F 72
                02 02 03 03 04 00",
        ),
        41,
    ),
    (
        Whole(
            "F1 43 4D 36 3A 00 01 01 1A 6C 65 76 65 6C 64 62 2E 42 79 74 65 77 69 73 65 43 6F 6D 70 61 72 61 74 6F 72
                02 02 03 03 80 48 17 00 80 80 80 80 01 80 80 80 20 80 80 80 20 04 80 80 80 80 01 0A 19 64",
        ),
        65,
    ),
    (
        Whole(
            "FE 47 B8 4B 3A 00 01 01 1A 6C 65 76 65 6C 64 62 2E 42 79 74 65 77 69 73 65 43 6F 6D 70 61 72 61 74 6F 72
                02 02 04 00 80 48 17 00 80 80 80 80 01 80 80 80 20 80 80 80 20 04 80 80 80 80 01 0A 19 64",
        ),
        65,
    ),
    (
        Whole(
            "BF 84 EF 5F 3A 00 01 01 1A 6C 65 76 65 6C 64 62 2E 42 79 74 65 77 69 73 65 43 6F 6D 70 61 72 61 74 6F 72
                03 03 04 00 80 48 17 00 80 80 80 80 01 80 80 80 20 80 80 80 20 04 80 80 80 80 01 0A 19 64",
        ),
        65,
    ),
    (
        Whole(
            "A6 E5 F6 BD 20 00 01 02 02 03 03 04 00
                80 48 17 00 80 80 80 80 01 80 80 80 20 80 80 80 20 04 80 80 80 80 01 0A 19 64",
        ),
        39,
    ),
];

#[test]
fn manifests_that_do_not_know_all(rt: HostRuntime) -> Result<(), Fail> {
    let alloc = rt.alloc();
    for (change, place) in LACKING_MANIFESTS {
        let answer = refused_for(alloc, "MANIFEST-000001", change)?;
        let want = format!(in alloc; "corrupt MANIFEST-000001 {place}")?;
        assert_eq!(rt; answer.as_str(), want.as_str(), "{change:?}");
    }
    Ok(())
}

// Bytes of the footer of a table, where they stand, and the place of the fault.
const TABLE_FOOTERS: [(usize, &str, u64); 6] = [
    // The handle of the metaindex block, and that of the index block: each passes the footer, or is none.
    (70, "7F", 70),
    (70, "FF FF FF FF FF FF FF FF FF FF", 70),
    (73, "17", 72),
    (72, "FF FF FF FF FF FF FF FF FF FF", 72),
    // The magic number.
    (110, "00", 110),
    (117, "00", 110),
];

#[test]
fn footers_of_tables(rt: HostRuntime) -> Result<(), Fail> {
    let alloc = rt.alloc();
    for (at, text, place) in TABLE_FOOTERS {
        let answer = refused_for(alloc, "000004.sst", From(at, text))?;
        let want = format!(in alloc; "corrupt 000004.sst {place}")?;
        assert_eq!(rt; answer.as_str(), want.as_str(), "{text} at {at}");
    }
    Ok(())
}

// Bytes of the ends of a blob file, where they stand, and the place of the fault.
const BLOB_ENDS: [(usize, &str, u64); 14] = [
    // The header: magic number, version, column family, flags, compression, and the two ends of the expiration range.
    (0, "36", 0),
    (7, "01", 4),
    (8, "01", 8),
    (12, "01", 12),
    (13, "04", 13),
    (21, "01", 14),
    (22, "01", 22),
    // The footer: magic number, expiration range, a count that the checksum does not fit, and the checksum.
    (69, "01", 66),
    (78, "01", 78),
    (93, "01", 86),
    (70, "02", 94),
    (97, "E9", 94),
    // Footers of two records and of none.
    (
        66,
        "37 8F 24 00 02 00 00 00 00 00 00 00 00 00 00 00 00 00 00 00 00 00 00 00 00 00 00 00 33 FC 82 C9",
        70,
    ),
    (
        66,
        "37 8F 24 00 00 00 00 00 00 00 00 00 00 00 00 00 00 00 00 00 00 00 00 00 00 00 00 00 94 DE 5D 63",
        70,
    ),
];

#[test]
fn ends_of_blob_files(rt: HostRuntime) -> Result<(), Fail> {
    let alloc = rt.alloc();
    for (at, text, place) in BLOB_ENDS {
        let answer = refused_for(alloc, "000005.blob", From(at, text))?;
        let want = format!(in alloc; "corrupt 000005.blob {place}")?;
        assert_eq!(rt; answer.as_str(), want.as_str(), "{text} at {at}");
    }
    Ok(())
}

// Logs with a record that does not belong there, and the place behind it.
const TORN_LOGS: [(&str, u64); 5] = [
    // No batch; batches of the sequences 1 and 3 behind the last sequence 1; two of the sequence 2; a wrong count.
    ("F2 70 E8 9D 03 00 01 61 62 63", 10),
    (
        "24 4C 95 98 11 00 01 01 00 00 00 00 00 00 00 01 00 00 00 01 01 62 01 31",
        24,
    ),
    (
        "B7 09 F2 29 11 00 01 03 00 00 00 00 00 00 00 01 00 00 00 01 01 62 01 31",
        24,
    ),
    (
        "EE 8B 54 E2 11 00 01 02 00 00 00 00 00 00 00 01 00 00 00 01 01 62 01 31
            6D D6 AF BD 11 00 01 02 00 00 00 00 00 00 00 01 00 00 00 01 01 63 01 31",
        48,
    ),
    (
        "20 7D 06 CA 11 00 01 02 00 00 00 00 00 00 00 02 00 00 00 01 01 62 01 31",
        24,
    ),
];

#[test]
fn records_of_logs(rt: HostRuntime) -> Result<(), Fail> {
    let alloc = rt.alloc();
    for (text, place) in TORN_LOGS {
        let answer = refused_for(alloc, "000003.log", Whole(text))?;
        let want = format!(in alloc; "corrupt 000003.log {place}")?;
        assert_eq!(rt; answer.as_str(), want.as_str(), "{text}");
    }
    Ok(())
}

// A log that has a record which is no batch.
const NO_BATCH: Change = Whole("F2 70 E8 9D 03 00 01 61 62 63");

// The table 5, or 6, in the manifest in place of the table 4.
const TABLE_FIVE: Change = From(
    67,
    "96 C5 1A 72 2C 00 01 02 03 03 06 04 01 67 00 05 76 09 61 11 01 00 00 00 00 00 00 09 61 11 01 00 00 00 00 00 00
    01 01 04 01 05 01 90 03 05 01 24 00 00 00",
);

const TABLE_SIX: Change = From(
    67,
    "9E EC 80 40 2C 00 01 02 03 03 07 04 01 67 00 06 76 09 61 11 01 00 00 00 00 00 00 09 61 11 01 00 00 00 00 00 00
    01 01 04 01 05 01 90 03 05 01 24 00 00 00",
);

// Two faults, and what is answered.
const TWO_FAULTS: [((&str, Change), (&str, Change), &str); 8] = [
    (
        ("MANIFEST-000001", Absent),
        ("CURRENT", Whole("")),
        "corrupt CURRENT 0",
    ),
    (
        ("000004.sst", Absent),
        ("MANIFEST-000001", Front(0)),
        "corrupt MANIFEST-000001 0",
    ),
    (
        ("000005.blob", Absent),
        ("000004.sst", From(110, "00")),
        "corrupt 000004.sst 110",
    ),
    (
        ("000003.log", NO_BATCH),
        ("000005.blob", From(8, "01")),
        "corrupt 000005.blob 8",
    ),
    (
        ("000006.log", NO_BATCH),
        ("000003.log", NO_BATCH),
        "corrupt 000003.log 10",
    ),
    // In one file: the header and the footer.
    (
        ("000005.blob", From(66, "00")),
        ("000005.blob", From(0, "36")),
        "corrupt 000005.blob 0",
    ),
    // A table and a blob file of one number: the table is absent.
    (
        ("MANIFEST-000001", TABLE_FIVE),
        ("000005.blob", From(0, "36")),
        "corrupt 000005.sst 0",
    ),
    // The table 6 is absent.
    (
        ("MANIFEST-000001", TABLE_SIX),
        ("000005.blob", From(0, "36")),
        "corrupt 000005.blob 0",
    ),
];

#[test]
fn the_first_of_two_faults(rt: HostRuntime) -> Result<(), Fail> {
    let alloc = rt.alloc();
    for (first, second, want) in TWO_FAULTS {
        let answer = refused(alloc, &[first, second])?;
        assert_eq!(rt; answer.as_str(), want);
    }
    Ok(())
}

// Changes that are no damage, and what is answered.
const NO_DAMAGE: [(&str, Change, &str); 9] = [
    // A table's data and the padding of its footer, a value, and a log below the log number are not read.
    ("000004.sst", From(3, "FF"), "opened 6 7 8 1"),
    ("000004.sst", From(80, "01"), "opened 6 7 8 1"),
    ("000005.blob", From(63, "00"), "opened 6 7 8 1"),
    ("000002.log", NO_BATCH, "opened 6 7 8 1"),
    // A torn tail of a log, and of the manifest; an edit of no field; a checksum that ends the manifest behind its first edit.
    (
        "000003.log",
        Whole("EE 8B 54 E2 11 00 01 02 00"),
        "opened 6 7 8 1",
    ),
    ("MANIFEST-000001", From(118, "F3 1A E2"), "opened 6 7 8 1"),
    (
        "MANIFEST-000001",
        From(118, "05 2B 28 43 00 00 01"),
        "opened 6 7 8 1",
    ),
    ("MANIFEST-000001", From(67, "00"), "opened 6 7 8 0"),
    // The next file number 10^15 is in bounds, and no number is left.
    (
        "MANIFEST-000001",
        From(118, "4B 08 98 24 09 00 01 03 80 80 9A A6 EA AF E3 01"),
        "full 1000000000000000",
    ),
];

#[test]
fn what_is_no_damage(rt: HostRuntime) -> Result<(), Fail> {
    let alloc = rt.alloc();
    for (name, change, want) in NO_DAMAGE {
        let mut site = damaged(alloc, &[(name, change)])?;
        let answer = opening(alloc, &mut site)?;
        assert_eq!(rt; answer.as_str(), want, "{name} {change:?}");
    }
    Ok(())
}
