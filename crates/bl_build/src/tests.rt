// Edits from outside, applied to versions, and each call once.

use crate::{
    BadVersion, BlobMeta, Standing, Version, apply, snapshot_edit, versions_reach_exactly,
};
use bl_blob::Totals;
use bl_edit::{NewTable, Options, decode_edit, encode_edit};
use std::alloc::{AllocError, Global};
use std::test::Fail;

// The table 4 of level 0 with its oldest blob file, and the blob file 5 with one record of 34 bytes.
const FLUSHED: [u8; 38] = [
    0x67, 0, 4, 0x76, 9, 0x61, 0x11, 1, 0, 0, 0, 0, 0, 0, 9, 0x61, 0x11, 1, 0, 0, 0, 0, 0, 0, 1, 1,
    4, 1, 5, 1, 0x90, 3, 5, 1, 34, 0, 0, 0,
];

// The table 7 of level 1 from a to c, and the table 6 of level 0.
const TWO_LEVELS: [u8; 54] = [
    0x67, 1, 7, 0x76, 9, 0x61, 1, 1, 0, 0, 0, 0, 0, 0, 9, 0x63, 1, 1, 0, 0, 0, 0, 0, 0, 1, 1, 1,
    0x67, 0, 6, 0x76, 9, 0x61, 1, 1, 0, 0, 0, 0, 0, 0, 9, 0x63, 1, 1, 0, 0, 0, 0, 0, 0, 1, 1, 1,
];

// The table 8 of level 1 from c to d.
const TOUCHING: [u8; 27] = [
    0x67, 1, 8, 0x76, 9, 0x63, 1, 1, 0, 0, 0, 0, 0, 0, 9, 0x64, 1, 1, 0, 0, 0, 0, 0, 0, 1, 1, 1,
];

// Behind the level and number of a table of which the greatest user key, a, stands before the least, c.
const TURNED: [u8; 24] = [
    0x76, 9, 0x63, 1, 1, 0, 0, 0, 0, 0, 0, 9, 0x61, 1, 1, 0, 0, 0, 0, 0, 0, 1, 1, 1,
];

// The edit of these bytes applied.
fn applied(alloc: Global, base: &Version, bytes: &[u8]) -> Result<Version, BadVersion> {
    match decode_edit(alloc, bytes) {
        Ok(edit) => apply(alloc, base, &edit),
        Err(_) => Err(BadVersion::OutOfMemory),
    }
}

// The bytes of 3,000 such tables of level 1, numbered from 128 on: no two of them overlap.
fn turned_tables(alloc: Global) -> Result<Vec<u8>, AllocError> {
    let mut bytes = Vec::new(alloc);
    for number in 128..3128u16 {
        let low = (number % 128) as u8;
        let high = (number / 128) as u8;
        bytes.extend_from_slice(&[0x67, 1, 128 + low, high])?;
        bytes.extend_from_slice(&TURNED)?;
    }
    Ok(bytes)
}

fn first_number(tables: &[NewTable]) -> Option<u64> {
    Some(tables.first()?.number)
}

#[test]
fn a_flush_and_a_compaction_are_applied(rt: HostRuntime) -> Result<(), Fail> {
    let nothing = Version::empty(rt.alloc());
    let Ok(base) = applied(rt.alloc(), &nothing, &FLUSHED) else {
        return Err("not applied".into());
    };
    assert_eq!(rt; base.tables(0).len(), 1);
    assert_eq!(rt; first_number(base.tables(0)), Some(4));
    assert_eq!(rt; base.tables(1).len(), 0);
    let file = BlobMeta {
        number: 5,
        total: Totals {
            count: 1,
            bytes: 34,
        },
        garbage: Totals { count: 0, bytes: 0 },
        linked: 1,
    };
    assert_eq!(rt; base.blobs(), [file].as_slice());
    let Ok(gone) = applied(rt.alloc(), &base, &[6, 0, 4, 0x91, 3, 5, 1, 34, 0]) else {
        return Err("not applied".into());
    };
    assert_eq!(rt; gone.tables(0).len(), 0);
    assert!(rt; gone.blobs().is_empty());
    Ok(())
}

#[test]
fn tables_are_kept_by_level(rt: HostRuntime) -> Result<(), Fail> {
    let nothing = Version::empty(rt.alloc());
    let Ok(base) = applied(rt.alloc(), &nothing, &TWO_LEVELS) else {
        return Err("not applied".into());
    };
    let Ok(twin) = base.copy(rt.alloc()) else {
        return Err("not copied".into());
    };
    assert_eq!(rt; first_number(twin.tables(0)), Some(6));
    assert_eq!(rt; first_number(twin.tables(1)), Some(7));
    assert_eq!(rt; twin.tables(6).len(), 0);
    assert!(rt; twin.blobs().is_empty());
    Ok(())
}

#[test]
fn edits_that_do_not_fit_are_refused(rt: HostRuntime) -> Result<(), Fail> {
    let nothing = Version::empty(rt.alloc());
    let Ok(base) = applied(rt.alloc(), &nothing, &FLUSHED) else {
        return Err("not applied".into());
    };
    assert_eq!(rt;
        applied(rt.alloc(), &base, &[6, 1, 4]).err(),
        Some(BadVersion::UnknownTable(4))
    );
    assert_eq!(rt;
        applied(rt.alloc(), &base, &FLUSHED).err(),
        Some(BadVersion::Twice(4))
    );
    assert_eq!(rt;
        applied(rt.alloc(), &base, &FLUSHED[30..]).err(),
        Some(BadVersion::Twice(5))
    );
    assert_eq!(rt;
        applied(rt.alloc(), &base, &[0x91, 3, 6, 1, 34, 0]).err(),
        Some(BadVersion::UnknownBlob(6))
    );
    assert_eq!(rt;
        applied(rt.alloc(), &base, &[0x91, 3, 5, 2, 68, 0]).err(),
        Some(BadVersion::Overflow(5))
    );
    let Ok(levels) = applied(rt.alloc(), &nothing, &TWO_LEVELS) else {
        return Err("not applied".into());
    };
    assert_eq!(rt;
        applied(rt.alloc(), &levels, &TOUCHING).err(),
        Some(BadVersion::Overlap(8))
    );
    Ok(())
}

#[test]
fn overlaps_are_found_among_many_tables(rt: HostRuntime) -> Result<(), Fail> {
    let nothing = Version::empty(rt.alloc());
    let mut bytes = turned_tables(rt.alloc())?;
    let Ok(many) = applied(rt.alloc(), &nothing, bytes.as_slice()) else {
        return Err("not applied".into());
    };
    assert_eq!(rt; many.tables(1).len(), 3000);
    assert_eq!(rt;
        applied(rt.alloc(), &many, &TWO_LEVELS).err(),
        Some(BadVersion::Overlap(7))
    );
    bytes.extend_from_slice(&TWO_LEVELS)?;
    bytes.extend_from_slice(&TOUCHING)?;
    assert_eq!(rt;
        applied(rt.alloc(), &nothing, bytes.as_slice()).err(),
        Some(BadVersion::Overlap(7))
    );
    Ok(())
}

#[test]
fn a_version_is_written_as_one_edit(rt: HostRuntime) -> Result<(), Fail> {
    let nothing = Version::empty(rt.alloc());
    let Ok(base) = applied(rt.alloc(), &nothing, &FLUSHED) else {
        return Err("not applied".into());
    };
    versions_reach_exactly();
    let standing = Standing {
        log_number: 3,
        next_file: 6,
        last_sequence: 1,
        options: Options {
            min_blob_size: 0,
            blob_file_size: 1,
            write_buffer: 1,
            table_size: 1,
            level0_trigger: 4,
            level_base: 1,
            level_factor: 10,
            age_cutoff: 25,
            force_threshold: 100,
        },
    };
    let Ok(edit) = snapshot_edit(rt.alloc(), &base, &standing) else {
        return Err("no edit".into());
    };
    let bytes = encode_edit(rt.alloc(), &edit)?;
    let Ok(again) = applied(rt.alloc(), &nothing, bytes.as_slice()) else {
        return Err("not applied".into());
    };
    assert_eq!(rt; edit.next_file, Some(6));
    assert_eq!(rt; first_number(again.tables(0)), Some(4));
    assert_eq!(rt; again.blobs(), base.blobs());
    Ok(())
}
