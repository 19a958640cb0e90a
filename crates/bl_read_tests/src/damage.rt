//! What readings of a damaged folder tell, of the fixed writes and counts.

use crate::finds::found;
use crate::samples::{COUNTS, Sample, WRITES, made_of};
use bl_site_mem::MemSite;
use std::alloc::Global;
use std::test::Fail;

const NAMES: [&str; 7] = [
    "000001.sst",
    "000002.sst",
    "000003.sst",
    "000004.sst",
    "000005.sst",
    "000006.sst",
    "000009.blob",
];

/// What is done to a file.
#[derive(Clone, Copy, Drop)]
pub(crate) enum Change {
    /// It is not there.
    Absent,
    /// So many bytes of its front are there.
    Front(usize),
    /// The byte at this place has its bits turned.
    Turned(usize),
}

// These bytes after the change, where there is still a file.
fn changed(alloc: Global, bytes: &[u8], change: Change) -> Result<Option<Vec<u8>>, Fail> {
    match change {
        Change::Absent => Ok(None),
        Change::Front(count) => {
            let front = &bytes[..count.min(bytes.len())];
            Ok(Some(Vec::from_slice(alloc, front)?))
        }
        Change::Turned(place) => {
            let mut copy = Vec::from_slice(alloc, bytes)?;
            match copy.get_mut(place) {
                Some(byte) => *byte ^= 0xFF,
                None => return Err(Fail::from("no such place")),
            }
            Ok(Some(copy))
        }
    }
}

/// The sample of the fixed writes, in a folder whose calls of these numbers fail, with this done to a file.
pub(crate) fn damaged(
    alloc: Global,
    failing: &[u64],
    name: &str,
    change: Change,
) -> Result<Sample, Fail> {
    let whole = made_of(alloc, &WRITES, COUNTS)?;
    let mut site = MemSite::with_failures(alloc, failing)?;
    for other in NAMES {
        let Some(bytes) = whole.site.file(other) else {
            return Err(Fail::from("no such file"));
        };
        if other != name {
            site.put_file(other, bytes)?;
        } else if let Some(bytes) = changed(alloc, bytes, change)? {
            site.put_file(other, &bytes)?;
        }
    }
    let Sample {
        site: _,
        version,
        waiting,
        in_use,
    } = whole;
    Ok(Sample {
        site,
        version,
        waiting,
        in_use,
    })
}

// A file and its change, and of a key at a sequence the value, or what the refusal says.
const FINDS: [(&str, Change, &str, u64, &str); 16] = [
    (
        "000009.blob",
        Change::Absent,
        "a",
        6,
        "corrupt 000009.blob 0",
    ),
    ("000009.blob", Change::Absent, "d", 8, "d=8"),
    ("000009.blob", Change::Absent, "aa", 14, "none"),
    // The fourth record begins at 138, its value at 171; and 28 bytes behind its beginning stands the checksum of key and value.
    (
        "000009.blob",
        Change::Turned(171),
        "a",
        6,
        "corrupt 000009.blob 166",
    ),
    ("000009.blob", Change::Turned(171), "a", 5, "a=1"),
    (
        "000009.blob",
        Change::Front(173),
        "a",
        6,
        "corrupt 000009.blob 146",
    ),
    ("000001.sst", Change::Absent, "a", 5, "corrupt 000001.sst 0"),
    ("000001.sst", Change::Absent, "a", 22, "a=18"),
    ("000001.sst", Change::Absent, "d", 8, "d=8"),
    (
        "000004.sst",
        Change::Front(90),
        "d",
        8,
        "corrupt 000004.sst 0",
    ),
    ("000004.sst", Change::Front(90), "d", 22, "none"),
    // The block has three entries in 45 bytes, 8 bytes of restarts, and a byte in front of its checksum.
    (
        "000006.sst",
        Change::Turned(44),
        "b",
        12,
        "corrupt 000006.sst 54",
    ),
    (
        "000006.sst",
        Change::Turned(44),
        "c",
        12,
        "corrupt 000006.sst 54",
    ),
    ("000006.sst", Change::Turned(44), "c", 20, "none"),
    ("000006.sst", Change::Turned(44), "d", 12, "d=8"),
    ("000006.sst", Change::Turned(44), "b", 19, "none"),
];

#[test]
fn finds_in_damaged_folders(rt: HostRuntime) -> Result<(), Fail> {
    let alloc = rt.alloc();
    for (name, change, key, seq, want) in FINDS {
        let mut sample = damaged(alloc, &[], name, change)?;
        let got = found(alloc, &mut sample, key, seq)?;
        assert_eq!(rt; got.as_str(), want, "{name} {key} {seq}");
    }
    Ok(())
}

// The key b has a value in the blob file, and is in the range of four tables.
#[test]
fn finds_where_a_call_fails(rt: HostRuntime) -> Result<(), Fail> {
    let alloc = rt.alloc();
    let mut whole = damaged(alloc, &[], "", Change::Absent)?;
    assert_eq!(rt; found(alloc, &mut whole, "b", 12)?.as_str(), "b=11");
    let calls = whole.site.calls();
    assert!(rt; calls > 8);
    for call in 0..calls {
        let mut sample = damaged(alloc, &[call.wrapping_add(1)], "", Change::Absent)?;
        let got = found(alloc, &mut sample, "b", 12)?;
        assert_eq!(rt; got.as_str(), "disk", "call {call}");
        assert_eq!(rt; found(alloc, &mut sample, "b", 12)?.as_str(), "b=11");
    }
    Ok(())
}
