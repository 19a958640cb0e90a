//! The bytes of a store's folder, and changes to them.

use crate::folders::{bytes_of, folder};
use bl_site_mem::MemSite;
use std::alloc::Global;
use std::test::Fail;

/// The text `MANIFEST-000001` and a newline.
pub(crate) const CURRENT: &str = "4D 41 4E 49 46 45 53 54 2D 30 30 30 30 30 31 0A";

/// A table of the key `a`, whose value is in the blob file 5.
pub(crate) const TABLE: &str = "
    00 09 05 61 11 01 00 00 00 00 00 00 01 05 3F 03 00 00 00 00 00 01 00 00 00 00 5B 41 DC 58
    00 00 00 00 01 00 00 00 00 C0 F2 A1 B0
    00 09 02 61 11 01 00 00 00 00 00 00 00 19 00 00 00 00 01 00 00 00 00 CE DB EA 86
    1E 08 2B 16 00 00 00 00 00 00 00 00 00 00 00 00 00 00 00 00 00 00 00 00 00 00 00 00 00 00 00 00
    00 00 00 00 00 00 00 00 57 FB 80 8B 24 75 47 DB";

/// The blob file: the value `xyz` of the key `a`.
pub(crate) const BLOB: &str = "
    37 8F 24 00 01 00 00 00 00 00 00 00 00 00 00 00 00 00 00 00 00 00 00 00 00 00 00 00 00 00
    01 00 00 00 00 00 00 00 03 00 00 00 00 00 00 00 00 00 00 00 00 00 00 00 70 45 A9 3F A4 44 5C 66 61 78 79 7A
    37 8F 24 00 01 00 00 00 00 00 00 00 00 00 00 00 00 00 00 00 00 00 00 00 00 00 00 00 FB 71 4A E8";

/// A manifest of two records: the first edit of a fresh folder, in which values of at least 3 bytes go to blob files; and the
/// edit of a flush, with the log 3, the next file 6, the last sequence 1, the table 4 and the blob file 5.
pub(crate) const MANIFEST: &str = "
    28 9E 8C 72 3C 00 01 01 1A 6C 65 76 65 6C 64 62 2E 42 79 74 65 77 69 73 65 43 6F 6D 70 61 72 61 74 6F 72
    02 02 03 03 04 00 80 48 17 03 80 80 80 80 01 80 80 80 20 80 80 80 20 04 80 80 80 80 01 0A 19 64
    FF A7 72 5B 2C 00 01 02 03 03 06 04 01 67 00 04 76 09 61 11 01 00 00 00 00 00 00 09 61 11 01 00 00 00 00 00 00
    01 01 04 01 05 01 90 03 05 01 24 00 00 00";

/// A store with one value in a blob file.
pub(crate) const ONE_BLOB: [(&str, &str); 5] = [
    ("CURRENT", CURRENT),
    ("MANIFEST-000001", MANIFEST),
    ("000003.log", ""),
    ("000004.sst", TABLE),
    ("000005.blob", BLOB),
];

/// The first edit of a fresh folder, in which values of at least 3 bytes go to blob files.
pub(crate) const FIRST_EDIT: &str = "
    28 9E 8C 72 3C 00 01 01 1A 6C 65 76 65 6C 64 62 2E 42 79 74 65 77 69 73 65 43 6F 6D 70 61 72 61 74 6F 72
    02 02 03 03 04 00 80 48 17 03 80 80 80 80 01 80 80 80 20 80 80 80 20 04 80 80 80 80 01 0A 19 64";

/// The batches of a log: `a` is put with `xyz` and `b` with `12`; then `a` is put with `wxyz`, and `b` is deleted.
pub(crate) const BATCHES: &str = "
    79 1B 5A 23 19 00 01 01 00 00 00 00 00 00 00 02 00 00 00 01 01 61 03 78 79 7A 01 01 62 02 31 32
    FD 2D EB 06 17 00 01 03 00 00 00 00 00 00 00 02 00 00 00 01 01 61 04 77 78 79 7A 00 01 62";

/// The second of them alone.
pub(crate) const SECOND_BATCH: &str =
    "FD 2D EB 06 17 00 01 03 00 00 00 00 00 00 00 02 00 00 00 01 01 61 04 77 78 79 7A 00 01 62";

/// The blob file that holds `wxyz` for `a`.
pub(crate) const LAST_VALUE: &str = "
    37 8F 24 00 01 00 00 00 00 00 00 00 00 00 00 00 00 00 00 00 00 00 00 00 00 00 00 00 00 00
    01 00 00 00 00 00 00 00 04 00 00 00 00 00 00 00 00 00 00 00 00 00 00 00 39 DC 9A A7 4C 1B 8C 40 61 77 78 79 7A
    37 8F 24 00 01 00 00 00 00 00 00 00 00 00 00 00 00 00 00 00 00 00 00 00 00 00 00 00 FB 71 4A E8";

/// A store whose log has the two batches.
pub(crate) const TWO_BATCHES: [(&str, &str); 3] = [
    ("CURRENT", CURRENT),
    ("MANIFEST-000001", FIRST_EDIT),
    ("000002.log", BATCHES),
];

/// What is done to a file.
#[derive(Clone, Copy, Debug, Drop)]
pub(crate) enum Change {
    /// It is taken away.
    Absent,
    /// Its bytes are these alone.
    Whole(&'static str),
    /// From a place on it has these bytes in place of as many.
    From(usize, &'static str),
    /// It has so many bytes of its front alone.
    Front(usize),
}

// The bytes of a file once its middle, of the length of the new bytes, is replaced.
fn replaced(alloc: Global, bytes: &[u8], place: usize, new: &[u8]) -> Result<Vec<u8>, Fail> {
    let front = place.min(bytes.len());
    let rest = front.saturating_add(new.len()).min(bytes.len());
    let mut replaced = bytes[..front].to_vec(alloc)?;
    replaced.extend_from_slice(new)?;
    replaced.extend_from_slice(&bytes[rest..])?;
    Ok(replaced)
}

// A file's bytes once this is done to them.
fn changed(alloc: Global, bytes: &[u8], change: Change) -> Result<Vec<u8>, Fail> {
    match change {
        Change::Absent => Ok(Vec::new(alloc)),
        Change::Whole(text) => bytes_of(alloc, text),
        Change::From(place, text) => {
            let new = bytes_of(alloc, text)?;
            replaced(alloc, bytes, place, &new)
        }
        Change::Front(length) => Ok(bytes[..length.min(bytes.len())].to_vec(alloc)?),
    }
}

/// This is done to a file of the folder.
pub(crate) fn change_file(
    alloc: Global,
    site: &mut MemSite,
    name: &str,
    change: Change,
) -> Result<(), Fail> {
    if matches!(change, Change::Absent) {
        site.remove(name)?;
        return Ok(());
    }
    let bytes = changed(alloc, site.file(name).unwrap_or(&[]), change)?;
    site.put_file(name, &bytes)?;
    Ok(())
}

/// The store with one value in a blob file, once this is done to some of its files.
pub(crate) fn damaged(alloc: Global, changes: &[(&str, Change)]) -> Result<MemSite, Fail> {
    let mut site = folder(alloc, &ONE_BLOB)?;
    for (name, change) in changes {
        change_file(alloc, &mut site, *name, *change)?;
    }
    Ok(site)
}
