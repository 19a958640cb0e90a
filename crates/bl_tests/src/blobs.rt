//! A blob file as RocksDB writes it, with checksums that another program computed.

use bl_blob::{BadBlob, BlobBuilder, BlobRule, read_blob_file};
use std::alloc::Global;
use std::test::Fail;

// Key `a` with value `xyz`, and key `bc` with an empty value; no compression, no expiration.
const FILE: [u8; 132] = [
    0x37, 0x8F, 0x24, 0x00, 0x01, 0x00, 0x00, 0x00, 0x00, 0x00, 0x00, 0x00, 0x00, 0x00, 0x00, 0x00,
    0x00, 0x00, 0x00, 0x00, 0x00, 0x00, 0x00, 0x00, 0x00, 0x00, 0x00, 0x00, 0x00, 0x00, 0x01, 0x00,
    0x00, 0x00, 0x00, 0x00, 0x00, 0x00, 0x03, 0x00, 0x00, 0x00, 0x00, 0x00, 0x00, 0x00, 0x00, 0x00,
    0x00, 0x00, 0x00, 0x00, 0x00, 0x00, 0x70, 0x45, 0xA9, 0x3F, 0xA4, 0x44, 0x5C, 0x66, 0x61, 0x78,
    0x79, 0x7A, 0x02, 0x00, 0x00, 0x00, 0x00, 0x00, 0x00, 0x00, 0x00, 0x00, 0x00, 0x00, 0x00, 0x00,
    0x00, 0x00, 0x00, 0x00, 0x00, 0x00, 0x00, 0x00, 0x00, 0x00, 0xE8, 0xD5, 0x8A, 0xE0, 0x34, 0x33,
    0xDB, 0xA7, 0x62, 0x63, 0x37, 0x8F, 0x24, 0x00, 0x02, 0x00, 0x00, 0x00, 0x00, 0x00, 0x00, 0x00,
    0x00, 0x00, 0x00, 0x00, 0x00, 0x00, 0x00, 0x00, 0x00, 0x00, 0x00, 0x00, 0x00, 0x00, 0x00, 0x00,
    0x33, 0xFC, 0x82, 0xC9,
];

// How many records the file has, and whether the one at a place has this key and this value, which begins at this offset.
fn record_is(
    alloc: Global,
    place: usize,
    key: &[u8],
    value: &[u8],
    offset: u64,
) -> Result<(usize, bool), Fail> {
    let blobs = read_blob_file(alloc, &FILE)?;
    let same = match blobs.get(place) {
        Some(blob) => blob.key.as_slice() == key
            && blob.value.as_slice() == value
            && blob.offset == offset,
        None => false,
    };
    Ok((blobs.len(), same))
}

#[test]
fn rocksdb_file_is_read(rt: HostRuntime) -> Result<(), Fail> {
    assert_eq!(rt; record_is(rt.alloc(), 0, b"a", b"xyz", 63)?, (2, true));
    assert_eq!(rt; record_is(rt.alloc(), 1, b"bc", b"", 100)?, (2, true));
    Ok(())
}

#[test]
fn rocksdb_file_is_built(rt: HostRuntime) -> Result<(), Fail> {
    let mut builder = BlobBuilder::start();
    let first = builder.add(rt.alloc(), b"a", b"xyz")?;
    let second = builder.add(rt.alloc(), b"bc", b"")?;
    let (_, footer) = builder.finish();
    let mut file = first.bytes.as_slice().to_vec(rt.alloc())?;
    file.extend_from_slice(second.bytes.as_slice())?;
    file.extend_from_slice(&footer)?;
    assert_eq!(rt; file.as_slice(), FILE.as_slice());
    Ok(())
}

#[test]
fn damaged_value_is_found(rt: HostRuntime) -> Result<(), Fail> {
    let mut file = FILE.to_vec(rt.alloc())?;
    file[64] = 0;
    match read_blob_file(rt.alloc(), &file) {
        Err(fault) => assert_eq!(rt; fault, BadBlob::At(BlobRule::Crc, 58)),
        Ok(_) => return Err(Fail::from("read")),
    }
    Ok(())
}
