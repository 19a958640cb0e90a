// Vectors from outside, and each call once.

use crate::{
    BadEdit, BlobGarbage, DeletedTable, Edit, Items, decode_edit, edits_are_read, encode_edit,
};
use std::test::Fail;

const KEY: &[u8] = b"a\x11\x01\0\0\0\0\0\0";

// Log number 3, next file number 6, last sequence 1, the table 4 and the blob file 5.
const FLUSHED: [u8; 44] = [
    2, 3, 3, 6, 4, 1, 0x67, 0, 4, 0x76, 9, 0x61, 0x11, 1, 0, 0, 0, 0, 0, 0, 9, 0x61, 0x11, 1, 0, 0,
    0, 0, 0, 0, 1, 1, 4, 1, 5, 1, 0x90, 3, 5, 1, 0x24, 0, 0, 0,
];

// Comparator, log number 2, next file number 3, last sequence 0, and the default options.
const FIRST: [u8; 60] = [
    1, 26, b'l', b'e', b'v', b'e', b'l', b'd', b'b', b'.', b'B', b'y', b't', b'e', b'w', b'i',
    b's', b'e', b'C', b'o', b'm', b'p', b'a', b'r', b'a', b't', b'o', b'r', 2, 2, 3, 3, 4, 0, 0x80,
    0x48, 23, 0, 0x80, 0x80, 0x80, 0x80, 1, 0x80, 0x80, 0x80, 0x20, 0x80, 0x80, 0x80, 0x20, 4,
    0x80, 0x80, 0x80, 0x80, 1, 10, 25, 100,
];

#[test]
fn the_edit_of_a_flush_is_read_and_written(rt: HostRuntime) -> Result<(), Fail> {
    match decode_edit(rt.alloc(), &FLUSHED) {
        Ok(edit) => {
            assert_eq!(rt; edit.log_number, Some(3));
            assert_eq!(rt; edit.next_file, Some(6));
            assert_eq!(rt; edit.last_sequence, Some(1));
            assert_eq!(rt; edit.blobs.as_slice().len(), 1);
            assert_eq!(rt; edit.blobs.as_slice()[0].bytes, 36);
            assert_eq!(rt; edit.added.as_slice().len(), 1);
            assert_eq!(rt; edit.added.as_slice()[0].oldest_blob, 5);
            assert!(rt; edit.added.as_slice()[0].smallest.as_slice() == KEY);
            let bytes = encode_edit(rt.alloc(), &edit)?;
            assert_eq!(rt; bytes.as_slice(), FLUSHED.as_slice());
        }
        Err(_) => assert!(rt; false),
    }
    Ok(())
}

#[test]
fn the_edit_of_a_fresh_folder_is_read_and_written(rt: HostRuntime) -> Result<(), Fail> {
    match decode_edit(rt.alloc(), &FIRST) {
        Ok(edit) => {
            assert!(rt; edit.comparator);
            let options = edit.options.ok_or("no options")?;
            assert_eq!(rt; options.blob_file_size, 268_435_456);
            assert_eq!(rt; options.force_threshold, 100);
            let bytes = encode_edit(rt.alloc(), &edit)?;
            assert_eq!(rt; bytes.as_slice(), FIRST.as_slice());
        }
        Err(_) => assert!(rt; false),
    }
    Ok(())
}

#[test]
fn the_edit_of_a_compaction_is_written(rt: HostRuntime) -> Result<(), Fail> {
    let mut edit = Edit::new(rt.alloc());
    edit.deleted = Items::from_vec(vec![in rt.alloc();
        DeletedTable {
            level: 1,
            number: 300
        },
    ]?);
    edit.garbage.push(BlobGarbage {
        number: 5,
        count: 1,
        bytes: 34,
    })?;
    edits_are_read();
    let bytes = encode_edit(rt.alloc(), &edit)?;
    assert_eq!(rt;
        bytes.as_slice(),
        [6, 1, 0xAC, 2, 0x91, 3, 5, 1, 34, 0].as_slice()
    );
    Ok(())
}

#[test]
fn damaged_edits_are_refused(rt: HostRuntime) {
    assert_eq!(rt;
        decode_edit(rt.alloc(), &[5, 0]).err(),
        Some(BadEdit::At(5, 0))
    );
    assert_eq!(rt;
        decode_edit(rt.alloc(), &[6, 7, 4]).err(),
        Some(BadEdit::At(6, 0))
    );
    assert_eq!(rt;
        decode_edit(rt.alloc(), &FLUSHED[..43]).err(),
        Some(BadEdit::At(400, 36))
    );
    assert_eq!(rt;
        decode_edit(rt.alloc(), &[2, 3, 0x90]).err(),
        Some(BadEdit::At(0, 2))
    );
    let tables = Items::<DeletedTable>::new(rt.alloc());
    assert!(rt; tables.as_slice().is_empty());
}
