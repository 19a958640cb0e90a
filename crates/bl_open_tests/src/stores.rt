//! Openings of a store whose logs are empty.

use crate::folders::{NOTHING, folder, holds, opening, told};
use crate::samples::{BLOB, ONE_BLOB, TABLE};
use bl_blob::Totals;
use bl_build::BlobMeta;
use bl_open::recover;
use std::test::Fail;

#[test]
fn the_version_that_is_found(rt: HostRuntime) -> Result<(), Fail> {
    let alloc = rt.alloc();
    let mut site = folder(alloc, &ONE_BLOB)?;
    let opened = recover(alloc, &mut site, &NOTHING).map_err(|_| Fail::from("not opened"))?;
    let table = opened.version.tables(0).first().ok_or("no table")?;
    assert_eq!(rt; (table.level, table.number, table.size), (0, 4, 118));
    assert_eq!(rt;
        (table.least_seq, table.most_seq, table.oldest_blob),
        (1, 1, 5)
    );
    let blob = opened.version.blobs().first().ok_or("no blob file")?;
    assert_eq!(rt;
        *blob,
        BlobMeta {
            number: 5,
            total: Totals {
                count: 1,
                bytes: 36
            },
            garbage: Totals { count: 0, bytes: 0 },
            linked: 1,
        }
    );
    assert_eq!(rt; opened.standing.options.min_blob_size, 3);
    assert_eq!(rt; opened.standing.options.age_cutoff, 25);
    Ok(())
}

// What an opening leaves of the store with one value.
const LEFT: [(&str, &str); 5] = [
    ("CURRENT", "4D 41 4E 49 46 45 53 54 2D 30 30 30 30 30 36 0A"),
    // The log 7, the next file 8, the last sequence 1, the options, the table 4 and the blob file 5.
    (
        "MANIFEST-000006",
        "46 DA 0E C6 62 00 01 01 1A 6C 65 76 65 6C 64 62 2E 42 79 74 65 77 69 73 65 43 6F 6D 70 61 72 61 74 6F 72
            02 07 03 08 04 01 80 48 17 03 80 80 80 80 01 80 80 80 20 80 80 80 20 04 80 80 80 80 01 0A 19 64
            67 00 04 76 09 61 11 01 00 00 00 00 00 00 09 61 11 01 00 00 00 00 00 00 01 01 04 01 05 01
            90 03 05 01 24 00 00 00",
    ),
    ("000007.log", ""),
    ("000004.sst", TABLE),
    ("000005.blob", BLOB),
];

#[test]
fn what_an_opening_leaves(rt: HostRuntime) -> Result<(), Fail> {
    let alloc = rt.alloc();
    let mut site = folder(alloc, &ONE_BLOB)?;
    assert_eq!(rt;
        told(alloc, &recover(alloc, &mut site, &NOTHING))?.as_str(),
        "opened 6 7 8 1"
    );
    for (name, text) in LEFT {
        assert!(rt; holds(alloc, &site, name, text)?, "{name}");
    }
    assert!(rt; site.file("000006.dbtmp").is_none());
    assert_eq!(rt; opening(alloc, &mut site)?.as_str(), "opened 8 9 10 1");
    Ok(())
}
