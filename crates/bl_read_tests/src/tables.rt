//! Tables that are opened as runs, and files that are none.

use crate::folders::{TABLE, bytes_of, table_of, text_of};
use bl_cache::TableRun;
use bl_entry::Kind;
use bl_site_mem::MemSite;
use std::alloc::Global;
use std::test::Fail;

// `ok`, or what the refusal says, of the table 4 with these bytes and of this size.
fn opened(alloc: Global, bytes: &[u8], size: u64) -> Result<String, Fail> {
    let mut site = MemSite::start(alloc)?;
    site.put_file("000004.sst", bytes)?;
    match TableRun::open(alloc, &mut site, 4, size) {
        Ok(_) => Ok(String::from_str(alloc, "ok")?),
        Err(error) => text_of(alloc, &error),
    }
}

#[test]
fn sizes_and_bytes(rt: HostRuntime) -> Result<(), Fail> {
    let alloc = rt.alloc();
    let bytes = bytes_of(alloc, TABLE)?;
    assert_eq!(rt; opened(alloc, &bytes, 118)?.as_str(), "ok");
    assert_eq!(rt;
        opened(alloc, &bytes, 117)?.as_str(),
        "corrupt 000004.sst 0"
    );
    let short = &bytes[..bytes.len().min(117)];
    assert_eq!(rt; opened(alloc, short, 118)?.as_str(), "corrupt 000004.sst 0");
    // The footer's first handle, at 69, names a block that begins at 3846.
    assert_eq!(rt;
        opened(alloc, short, 117)?.as_str(),
        "corrupt 000004.sst 69"
    );
    let mut site = MemSite::start(alloc)?;
    let Err(error) = TableRun::open(alloc, &mut site, 4, 118) else {
        return Err(Fail::from("it is absent"));
    };
    assert_eq!(rt; text_of(alloc, &error)?.as_str(), "corrupt 000004.sst 0");
    Ok(())
}

// The second entry is out of bounds: a deletion with a value, and blob references with no index, and with the file 0.
const OUT_OF_BOUNDS: [(Kind, &str); 3] = [
    (Kind::Deletion, "x"),
    (Kind::BlobRef, "x"),
    (Kind::BlobRef, "\u{1}\u{0}\u{3f}\u{3}\u{0}"),
];

#[test]
fn entries_out_of_bounds(rt: HostRuntime) -> Result<(), Fail> {
    let alloc = rt.alloc();
    for (kind, value) in OUT_OF_BOUNDS {
        let entries = [("a", 1, Kind::Value, "1"), ("b", 1, kind, value)];
        let bytes = table_of(alloc, &entries)?;
        let answer = opened(alloc, &bytes, bytes.len() as u64)?;
        // The first entry has three lengths, a key of 9 bytes and a value of one.
        assert_eq!(rt; answer.as_str(), "corrupt 000004.sst 13");
    }
    Ok(())
}

// The calls of these numbers fail.
#[test]
fn calls_that_fail(rt: HostRuntime) -> Result<(), Fail> {
    let alloc = rt.alloc();
    let bytes = bytes_of(alloc, TABLE)?;
    for call in [1, 2] {
        let mut site = MemSite::with_failures(alloc, &[call])?;
        site.put_file("000004.sst", &bytes)?;
        match TableRun::open(alloc, &mut site, 4, 118) {
            Ok(_) => return Err(Fail::from("no call failed")),
            Err(error) => assert_eq!(rt; text_of(alloc, &error)?.as_str(), "disk"),
        }
    }
    Ok(())
}
