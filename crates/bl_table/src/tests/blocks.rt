//! Blocks of many entries: what is found in them, and when one is complete.

use super::{block_of, entries_of, key_of};
use crate::{Block, BlockEntry, TableBuilder, TableErr};
use std::alloc::Global;
use std::test::Fail;

// A table of the odd letters to 199, whose values are the letters.
fn odd_letters(alloc: Global) -> Result<TableBuilder, Fail> {
    let mut builder = TableBuilder::start(alloc);
    for letter in (1..=199).step_by(2) {
        builder.add(&key_of(letter), &[letter])?;
    }
    Ok(builder)
}

// The one data block of that table. Of 100 entries of 13 bytes each seven are restarts.
fn block_of_odd_letters(alloc: Global) -> Result<Block, Fail> {
    let mut builder = odd_letters(alloc)?;
    let table = builder.finish()?;
    match table.as_slice().get(..1337) {
        Some(bytes) => block_of(alloc, bytes, 0, 1332),
        None => Err(Fail::from("short")),
    }
}

// The entry at or behind a letter.
fn found(alloc: Global, block: &Block, letter: u8) -> Result<BlockEntry, Fail> {
    match block.first(alloc, &key_of(letter))? {
        Some(entry) => Ok(entry),
        None => Err(Fail::from("none")),
    }
}

// Whether the entry at a place is followed by one 13 bytes on.
fn is_followed(alloc: Global, block: &Block, place: u64) -> Result<bool, TableErr> {
    match block.after(alloc, place)? {
        Some(next) => Ok(next.place.wrapping_sub(place) == 13),
        None => Ok(false),
    }
}

#[test]
fn entries_take_13_bytes_each(rt: HostRuntime) -> Result<(), Fail> {
    assert_eq!(rt; odd_letters(rt.alloc())?.size(), 1300);
    Ok(())
}

#[test]
fn entries_of_a_block_are_found(rt: HostRuntime) -> Result<(), Fail> {
    let block = block_of_odd_letters(rt.alloc())?;
    for letter in 0..=199 {
        let entry = found(rt.alloc(), &block, letter)?;
        assert_eq!(rt; entry.value.as_slice(), [letter | 1].as_slice());
        assert_eq!(rt; entry.place, 13 * u64::from(letter / 2));
    }
    assert!(rt; block.first(rt.alloc(), &key_of(200))?.is_none());
    Ok(())
}

#[test]
fn entries_of_a_block_are_followed(rt: HostRuntime) -> Result<(), Fail> {
    let block = block_of_odd_letters(rt.alloc())?;
    for letter in 0..=199 {
        let place = found(rt.alloc(), &block, letter)?.place;
        assert_eq!(rt; is_followed(rt.alloc(), &block, place)?, letter < 198);
    }
    assert!(rt; block.after(rt.alloc(), 5)?.is_none());
    Ok(())
}

// Whether the last entry of a block is that of a letter.
fn ends_with(alloc: Global, block: &Block, letter: u8) -> Result<bool, Fail> {
    let last = found(alloc, block, letter)?;
    if last.key.as_slice() != key_of(letter).as_slice() {
        return Ok(false);
    }
    Ok(block.after(alloc, last.place)?.is_none())
}

// Adds a letter with a value of 100 bytes to a table. The answer is whether that completes a block; its last entry is then
// the letter's, or the answer a `Fail`.
fn add_letter(
    alloc: Global,
    builder: &mut TableBuilder,
    table: &mut Vec<u8>,
    letter: u8,
) -> Result<bool, Fail> {
    let bytes = builder.add(&key_of(letter), &[letter; 100])?;
    let size = (bytes.as_slice().len() as u64).saturating_sub(5);
    if size == 0 {
        return Ok(false);
    }
    let block = block_of(alloc, bytes.as_slice(), table.len() as u64, size)?;
    if !ends_with(alloc, &block, letter)? {
        return Err(Fail::from("another last entry"));
    }
    table.extend_from_slice(bytes.as_slice())?;
    Ok(true)
}

// Adds 200 letters. The answer is how many blocks that completes.
fn add_letters(
    alloc: Global,
    builder: &mut TableBuilder,
    table: &mut Vec<u8>,
) -> Result<usize, Fail> {
    let mut blocks: usize = 0;
    for letter in 0..200 {
        if add_letter(alloc, builder, table, letter)? {
            blocks = blocks.saturating_add(1);
        }
    }
    Ok(blocks)
}

// Whether an entry has this key and this value.
fn is_entry(entries: &[BlockEntry], at: usize, key: &[u8], value: &[u8]) -> bool {
    match entries.get(at) {
        Some(entry) => entry.key.as_slice() == key && entry.value.as_slice() == value,
        None => false,
    }
}

#[test]
fn each_complete_block_is_read(rt: HostRuntime) -> Result<(), Fail> {
    let mut builder = TableBuilder::start(rt.alloc());
    let mut table = Vec::new(rt.alloc());
    // 37 entries of 112 bytes, three restarts and their count make a block of 4160 bytes; 15 entries are left.
    assert_eq!(rt; add_letters(rt.alloc(), &mut builder, &mut table)?, 5);
    assert_eq!(rt; builder.size(), 5 * 4165 + 1680);
    Ok(())
}

// The table of those letters.
fn table_of_letters(alloc: Global) -> Result<Vec<u8>, Fail> {
    let mut builder = TableBuilder::start(alloc);
    let mut table = Vec::new(alloc);
    add_letters(alloc, &mut builder, &mut table)?;
    let rest = builder.finish()?;
    table.extend_from_slice(rest.as_slice())?;
    Ok(table)
}

#[test]
fn a_table_of_six_blocks_is_read(rt: HostRuntime) -> Result<(), Fail> {
    let table = table_of_letters(rt.alloc())?;
    let entries = entries_of(rt.alloc(), &table)?;
    assert_eq!(rt; entries.len(), 200);
    assert!(rt; is_entry(&entries, 0, &key_of(0), &[0; 100]));
    assert!(rt; is_entry(&entries, 199, &key_of(199), &[199; 100]));
    Ok(())
}
