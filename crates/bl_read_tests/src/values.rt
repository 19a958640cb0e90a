//! Values and blocks as they are read.

use crate::folders::{BLOB, TABLE, bytes_of, text_of};
use bl_cache::Files;
use bl_index::BlobIndex;
use bl_site_mem::MemSite;
use bl_table::Handle;
use std::alloc::Global;
use std::str;
use std::test::Fail;

// A table and a blob file, of which the last has so many bytes of its front alone.
fn folder(alloc: Global, front: usize) -> Result<MemSite, Fail> {
    let mut site = MemSite::start(alloc)?;
    site.put_file("000004.sst", &bytes_of(alloc, TABLE)?)?;
    let blob = bytes_of(alloc, BLOB)?;
    site.put_file("000005.blob", &blob[..front.min(blob.len())])?;
    Ok(site)
}

// The value that an index names, or what the refusal says.
fn value_of(
    alloc: Global,
    site: &mut MemSite,
    key: &str,
    index: BlobIndex,
) -> Result<String, Fail> {
    if index.file == 0 || index.file > 1000 {
        return Err(Fail::from("no file"));
    }
    let Ok(mut files) = Files::start(alloc) else {
        return Err(Fail::from("no memory"));
    };
    match files.value(site, key.as_bytes(), &index) {
        Ok(value) => Ok(String::from_str(alloc, str::from_utf8(value.as_slice())?)?),
        Err(error) => text_of(alloc, &error),
    }
}

// User keys, and indexes by file, offset and size.
const INDEXES: [(&str, u64, u64, u64, &str); 11] = [
    ("a", 5, 63, 3, "xyz"),
    ("b", 5, 63, 3, "corrupt 000005.blob 62"),
    ("a", 5, 63, 2, "corrupt 000005.blob 38"),
    ("a", 5, 63, 4, "corrupt 000005.blob 38"),
    ("a", 5, 63, u64::MAX, "corrupt 000005.blob 38"),
    ("a", 5, 32, 3, "corrupt 000005.blob 0"),
    ("a", 5, 33, 3, "corrupt 000005.blob 24"),
    ("a", 5, 62, 3, "corrupt 000005.blob 53"),
    ("a", 5, 131, 3, "corrupt 000005.blob 98"),
    (
        "a",
        5,
        u64::MAX,
        3,
        "corrupt 000005.blob 18446744073709551582",
    ),
    ("a", 6, 63, 3, "corrupt 000006.blob 0"),
];

#[test]
fn values_of_indexes(rt: HostRuntime) -> Result<(), Fail> {
    let alloc = rt.alloc();
    let mut site = folder(alloc, 98)?;
    for (key, file, offset, size, want) in INDEXES {
        let index = BlobIndex { file, offset, size };
        let answer = value_of(alloc, &mut site, key, index)?;
        assert_eq!(rt; answer.as_str(), want);
    }
    Ok(())
}

// Of a file that was cut the record's bytes that are there decide.
#[test]
fn values_of_a_cut_file(rt: HostRuntime) -> Result<(), Fail> {
    let alloc = rt.alloc();
    let index = BlobIndex {
        file: 5,
        offset: 63,
        size: 3,
    };
    for (front, key, want) in [
        (66, "a", "xyz"),
        (65, "a", "corrupt 000005.blob 38"),
        (65, "b", "corrupt 000005.blob 62"),
        (62, "b", "corrupt 000005.blob 38"),
        (61, "a", "corrupt 000005.blob 30"),
        (20, "a", "corrupt 000005.blob 30"),
    ] {
        let mut site = folder(alloc, front)?;
        let answer = value_of(alloc, &mut site, key, index)?;
        assert_eq!(rt; answer.as_str(), want);
    }
    Ok(())
}

// How many bytes a block has with its trailer, or what the refusal says.
fn block_of(alloc: Global, site: &mut MemSite, table: u64, handle: Handle) -> Result<String, Fail> {
    if table == 0 || table > 1000 {
        return Err(Fail::from("no file"));
    }
    let Ok(mut files) = Files::start(alloc) else {
        return Err(Fail::from("no memory"));
    };
    match files.block(site, table, handle) {
        Ok(block) => Ok(format!(in alloc; "{}", block.len())?),
        Err(error) => text_of(alloc, &error),
    }
}

#[test]
fn blocks_of_handles(rt: HostRuntime) -> Result<(), Fail> {
    let alloc = rt.alloc();
    let mut site = folder(alloc, 98)?;
    for (table, offset, size, want) in [
        (4, 0, 25, "30"),
        (4, 43, 22, "27"),
        (4, 113, 5, "corrupt 000004.sst 113"),
        (4, 200, 5, "corrupt 000004.sst 200"),
        (
            4,
            u64::MAX,
            u64::MAX,
            "corrupt 000004.sst 18446744073709551615",
        ),
        (3, 0, 25, "corrupt 000003.sst 0"),
    ] {
        let answer = block_of(alloc, &mut site, table, Handle { offset, size })?;
        assert_eq!(rt; answer.as_str(), want);
    }
    Ok(())
}
