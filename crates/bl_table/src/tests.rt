mod blocks;

use crate::{
    BadTable, Block, BlockEntry, Handle, TableBuilder, TableErr, TableRule, read_footer, read_table,
};
use std::alloc::Global;
use std::test::Fail;

// A table without entries: metaindex block, index block and footer, each block with its trailer.
const EMPTY: &[u8; 74] = b"\x00\x00\x00\x00\x01\x00\x00\x00\x00\xC0\xF2\xA1\xB0\
\x00\x00\x00\x00\x01\x00\x00\x00\x00\xC0\xF2\xA1\xB0\
\x00\x08\x0D\x08\
\0\0\0\0\0\0\0\0\0\0\0\0\0\0\0\0\0\0\0\0\0\0\0\0\0\0\0\0\0\0\0\0\0\0\0\0\x57\xFB\x80\x8B\x24\x75\x47\xDB";

// The table of key `a` with sequence 1, whose value is a blob index.
const ONE: &[u8; 118] = b"\x00\x09\x05\x61\x11\x01\x00\x00\x00\x00\x00\x00\x01\x05\x3F\x03\x00\
\x00\x00\x00\x00\x01\x00\x00\x00\x00\x5B\x41\xDC\x58\
\x00\x00\x00\x00\x01\x00\x00\x00\x00\xC0\xF2\xA1\xB0\
\x00\x09\x02\x61\x11\x01\x00\x00\x00\x00\x00\x00\x00\x19\
\x00\x00\x00\x00\x01\x00\x00\x00\x00\xCE\xDB\xEA\x86\
\x1E\x08\x2B\x16\
\0\0\0\0\0\0\0\0\0\0\0\0\0\0\0\0\0\0\0\0\0\0\0\0\0\0\0\0\0\0\0\0\0\0\0\0\x57\xFB\x80\x8B\x24\x75\x47\xDB";

// The internal key of one letter with sequence 1 and kind 0x11.
fn key_of(letter: u8) -> [u8; 9] {
    [letter, 0x11, 1, 0, 0, 0, 0, 0, 0]
}

// Bytes with one of them changed.
fn with_byte(alloc: Global, bytes: &[u8], at: usize, byte: u8) -> Result<Vec<u8>, TableErr> {
    let mut changed = Vec::from_slice(alloc, bytes)?;
    if let Some(old) = changed.get_mut(at) {
        *old = byte;
    }
    Ok(changed)
}

// The block that these bytes are, with its trailer.
fn block_of(alloc: Global, bytes: &[u8], offset: u64, size: u64) -> Result<Block, Fail> {
    match Block::parse(alloc, bytes, Handle { offset, size }) {
        Ok(block) => Ok(block),
        Err(_) => Err(Fail::from("refused")),
    }
}

// The entries of a table.
fn entries_of(alloc: Global, table: &[u8]) -> Result<Vec<BlockEntry>, Fail> {
    match read_table(alloc, table) {
        Ok(entries) => Ok(entries),
        Err(_) => Err(Fail::from("refused")),
    }
}

#[test]
fn a_table_without_entries(rt: HostRuntime) -> Result<(), Fail> {
    let table = TableBuilder::start(rt.alloc()).finish()?;
    assert_eq!(rt; table.as_slice(), EMPTY.as_slice());
    let entries = entries_of(rt.alloc(), EMPTY)?;
    assert_eq!(rt; entries.len(), 0);
    Ok(())
}

#[test]
fn a_table_of_one_entry_is_written(rt: HostRuntime) -> Result<(), Fail> {
    let mut builder = TableBuilder::start(rt.alloc());
    let given = builder.add(&key_of(b'a'), &[1, 5, 0x3F, 3, 0])?;
    assert_eq!(rt; given.as_slice().len(), 0);
    assert_eq!(rt; builder.size(), 17);
    let table = builder.finish()?;
    assert_eq!(rt; table.as_slice(), ONE.as_slice());
    Ok(())
}

#[test]
fn the_footer_of_a_table_of_one_entry(rt: HostRuntime) {
    let meta = Handle {
        offset: 30,
        size: 8,
    };
    let index = Handle {
        offset: 43,
        size: 22,
    };
    let one = ONE.as_slice();
    assert_eq!(rt; read_footer(&one[70..], 118).ok(), Some((meta, index)));
}

#[test]
fn a_footer_of_zeros_is_refused(rt: HostRuntime) {
    assert_eq!(rt;
        read_footer(&[0; 48], 118).err(),
        Some(BadTable::At(TableRule::Magic, 110))
    );
}

#[test]
fn a_table_of_one_entry_is_read(rt: HostRuntime) -> Result<(), Fail> {
    let entries = entries_of(rt.alloc(), ONE)?;
    assert_eq!(rt; entries.len(), 1);
    let entry = &entries[0];
    assert_eq!(rt; entry.place, 0);
    assert_eq!(rt; entry.key.as_slice(), key_of(b'a').as_slice());
    assert_eq!(rt; entry.value.as_slice(), [1, 5, 0x3F, 3, 0].as_slice());
    Ok(())
}

// The first fault of the table of one entry, once a byte is changed.
fn changed(alloc: Global, at: usize, byte: u8) -> Result<Option<BadTable>, TableErr> {
    let table = with_byte(alloc, ONE, at, byte)?;
    Ok(read_table(alloc, &table).err())
}

fn refused(rule: TableRule, place: u64) -> Option<BadTable> {
    Some(BadTable::At(rule, place))
}

#[test]
fn a_changed_data_block_is_refused(rt: HostRuntime) -> Result<(), Fail> {
    // A byte of its key, its first restart, the count of its restarts, and its type.
    assert_eq!(rt; changed(rt.alloc(), 3, b'b')?, refused(TableRule::Crc, 26));
    assert_eq!(rt;
        changed(rt.alloc(), 17, 1)?,
        refused(TableRule::Restart, 17)
    );
    assert_eq!(rt;
        changed(rt.alloc(), 21, 0)?,
        refused(TableRule::Restart, 21)
    );
    assert_eq!(rt; changed(rt.alloc(), 25, 1)?, refused(TableRule::Kind, 25));
    Ok(())
}

#[test]
fn a_changed_handle_is_refused(rt: HostRuntime) -> Result<(), Fail> {
    for (at, byte, rule, place) in [
        // A data block of 24 bytes, whose last four count 256 restarts.
        (56, 24, TableRule::Restart, 20),
        // A data block that passes the footer.
        (56, 66, TableRule::Handle, 43),
        // The metaindex block and the index block pass the footer; another magic number.
        (70, 0x7F, TableRule::Handle, 70),
        (73, 0x7F, TableRule::Handle, 72),
        (117, 0, TableRule::Magic, 110),
    ] {
        assert_eq!(rt; changed(rt.alloc(), at, byte)?, refused(rule, place));
    }
    Ok(())
}

// The first fault of the data block of that table, once a byte is changed.
fn changed_block(alloc: Global, at: usize, byte: u8) -> Result<Option<BadTable>, TableErr> {
    let one = ONE.as_slice();
    let block = with_byte(alloc, &one[..30], at, byte)?;
    let handle = Handle {
        offset: 0,
        size: 25,
    };
    Ok(Block::parse(alloc, &block, handle).err())
}

#[test]
fn a_changed_block_is_refused(rt: HostRuntime) -> Result<(), Fail> {
    // A byte of the block's key, and its type.
    assert_eq!(rt;
        changed_block(rt.alloc(), 3, b'b')?,
        refused(TableRule::Crc, 26)
    );
    assert_eq!(rt;
        changed_block(rt.alloc(), 25, 1)?,
        refused(TableRule::Kind, 25)
    );
    Ok(())
}

#[test]
fn a_block_of_no_bytes_is_refused_by_its_type(rt: HostRuntime) -> Result<(), Fail> {
    // Its missing count and its type are at fault at one place: the rule that is listed first is answered.
    let handle = Handle { offset: 0, size: 0 };
    let block = Block::parse(rt.alloc(), &[1, 0, 0, 0, 0], handle);
    assert_eq!(rt; block.err(), refused(TableRule::Kind, 0));
    Ok(())
}

#[test]
fn a_metaindex_block_of_no_bytes_is_refused_by_its_type(rt: HostRuntime) -> Result<(), Fail> {
    let mut table = with_byte(rt.alloc(), EMPTY, 0, 1)?;
    // The handle of the metaindex block.
    if let Some(size) = table.get_mut(27) {
        *size = 0;
    }
    let read = read_table(rt.alloc(), &table);
    assert_eq!(rt; read.err(), refused(TableRule::Kind, 0));
    Ok(())
}
