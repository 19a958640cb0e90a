//! Blocks of tables, and values in blob files.

ghost use Rattle.std.specs.Prelude.{◌≡◌, ℕ, ◌+◌, ◌^◌, ◌<◌, IfOk, IsErrOf, IsOkUnless, Ok, Err};
ghost use Rattle.bl_site.specs.Causes.{Rose};
ghost use Rattle.bl_site.specs.Disk.{Name, folder_of};
ghost use Rattle.bl_site.specs.Quiet.{OnlyReads};
ghost use Rattle.bl_names.specs.Names.{IsNumber, name_of};
ghost use Rattle.bl_names.specs.declared.name.FileName.TheVariants.{Table, Blob};
ghost use Rattle.bl_entry.specs.declared.run.RunErr.TheVariants.{Corrupt};
ghost use Rattle.bl_cache.specs.declared.fault.Unread.TheVariants.{Damaged};
ghost use Rattle.bl_table.specs.Blocks.{read_block};
ghost use Rattle.bl_cache.specs.Reading.{block_with, read_block_at, read_value, value_in};

use crate::fault::{Unread, told};
use crate::part::read_part;
use bl_blob::{BadBlob, check_record};
use bl_entry::RunErr;
use bl_index::BlobIndex;
use bl_names::{FileName, print_name};
use bl_site::Site;
use bl_table::{BadTable, Block, Handle};
use bytes::Bytes;
use std::alloc::Global;

/// The bytes of a block's trailer.
const TRAILER: u128 = 5;

/// The bytes of a record's head.
const RECORD_HEAD: u64 = 32;

/// Reads blocks of tables and values of blob files. It keeps nothing of what it has read.
#[derive(Drop)]
pub struct Files {
    alloc: Global,
}

// These bytes, which are to be a block of this handle with its trailer.
fn checked_block(alloc: Global, bytes: Vec<u8>, handle: Handle) -> Result<Bytes, Unread>
    ensures given { IfOk result (λ block. block_with bytes.items (read_block bytes.items handle) ≡ Ok block) }
    ensures fault { (place : ℕ) → result ≡ Err (Damaged place) → block_with bytes.items (read_block bytes.items handle) ≡ Err place }
    ensures read { IsErrOf result Unread.Disk → ⊥ }
{
    match Block::parse(alloc, &bytes, handle) {
        Ok(_) => Ok(Bytes::from_vec(bytes)?),
        Err(BadTable::At(_, place)) => Err(Unread::Damaged(place)),
        Err(BadTable::OutOfMemory) => Err(Unread::OutOfMemory),
    }
}

// The value in these bytes, which are to be the record of this key and size that begins at a place.
fn value_of(bytes: Vec<u8>, start: u64, key: &[u8], size: u64) -> Result<Bytes, Unread>
    requires { start + 32 < 2 ^ 64 }
    ensures given { IfOk result (λ value. value_in start key.now size bytes.items ≡ Ok value) }
    ensures fault { (place : ℕ) → result ≡ Err (Damaged place) → value_in start key.now size bytes.items ≡ Err place }
    ensures read { IsErrOf result Unread.Disk → ⊥ }
{
    match check_record(&bytes, key, size) {
        Ok(()) => {
            let mut value = Bytes::from_vec(bytes)?;
            value.advance(RECORD_HEAD as usize + key.len());
            Ok(value)
        }
        Err(BadBlob::At(_, place)) => Err(Unread::Damaged(start + place)),
        Err(BadBlob::OutOfMemory) => Err(Unread::OutOfMemory),
    }
}

fn block_at<S: Site>(
    alloc: Global,
    site: &mut S,
    name: &str,
    handle: Handle,
) -> Result<Bytes, Unread>
    ensures given { S.shows → IfOk result (λ block. read_block_at handle (folder_of (S.disk site.old) name.now) ≡ Ok block) }
    ensures fault { S.shows → (place : ℕ) → result ≡ Err (Damaged place) → read_block_at handle (folder_of (S.disk site.old) name.now) ≡ Err place }
    ensures quiet { OnlyReads S.Site site.old site.new }
    ensures disk { IsErrOf result Unread.Disk → Rose (S.disk_faults site.old) (S.disk_faults site.new) }
{
    let count = u128::from(handle.size) + TRAILER;
    let part = read_part(alloc, site, name, handle.offset, count)?;
    checked_block(alloc, part, handle)
}

fn value_at<S: Site>(
    alloc: Global,
    site: &mut S,
    name: &str,
    key: &[u8],
    index: &BlobIndex,
) -> Result<Bytes, Unread>
    ensures given { S.shows → IfOk result (λ value. read_value key.now index.now (folder_of (S.disk site.old) name.now) ≡ Ok value) }
    ensures fault { S.shows → (place : ℕ) → result ≡ Err (Damaged place) → read_value key.now index.now (folder_of (S.disk site.old) name.now) ≡ Err place }
    ensures quiet { OnlyReads S.Site site.old site.new }
    ensures disk { IsErrOf result Unread.Disk → Rose (S.disk_faults site.old) (S.disk_faults site.new) }
{
    let front = RECORD_HEAD + key.len() as u64;
    if index.offset < front {
        return Err(Unread::Damaged(0));
    }
    let start = index.offset - front;
    let count = u128::from(front) + u128::from(index.size);
    let part = read_part(alloc, site, name, start, count)?;
    value_of(part, start, key, index.size)
}

impl Files {
    /// Nothing is kept yet. It takes no memory.
    pub fn start(alloc: Global) -> Result<Files, RunErr>
        ensures { IsOkUnless result RunErr.OutOfMemory }
    {
        Ok(Files { alloc })
    }

    /// The block of this handle with its trailer, of the table of this number.
    ///
    /// Errors: `Corrupt` with the table's name, exactly where it is absent, at 0, or what stands there is no block of this
    /// handle, at the place that `Block::parse` answers; `Disk`, only where the disk failed in this call; `OutOfMemory`.
    pub fn block<S: Site>(
        &mut self,
        site: &mut S,
        table: u64,
        handle: Handle,
    ) -> Result<Bytes, RunErr>
        requires { IsNumber table }
        ensures given { S.shows → IfOk result (λ block. read_block_at handle (folder_of (S.disk site.old) (name_of (Table table))) ≡ Ok block) }
        ensures corrupt { S.shows → (name : Name) (place : ℕ) → result ≡ Err (Corrupt name place)
            → (name ≡ name_of (Table table)) × (read_block_at handle (folder_of (S.disk site.old) (name_of (Table table))) ≡ Err place) }
        // The site is read, and nothing else.
        ensures quiet { OnlyReads S.Site site.old site.new }
        ensures disk { IsErrOf result RunErr.Disk → Rose (S.disk_faults site.old) (S.disk_faults site.new) }
    {
        let Ok(name) = print_name(self.alloc, &FileName::Table(table)) else {
            return Err(RunErr::OutOfMemory);
        };
        match block_at(self.alloc, site, name.as_str(), handle) {
            Ok(block) => Ok(block),
            Err(unread) => Err(told(self.alloc, name.as_str(), unread)),
        }
    }

    /// The value that an index of this user key names, in its blob file, whose number is from 1 to 10^15 - 1. Of the file
    /// only the record's bytes are read.
    ///
    /// Errors: `Corrupt` with the file's name, exactly where it is absent or the index's offset is below 32 and the key's
    /// length, at 0, or what stands there is no record of this key and size, at the record's beginning and the place that
    /// `check_record` answers of those of its bytes that are there; `Disk`, only where the disk failed in this call;
    /// `OutOfMemory`.
    pub fn value<S: Site>(
        &mut self,
        site: &mut S,
        key: &[u8],
        index: &BlobIndex,
    ) -> Result<Bytes, RunErr>
        requires { IsNumber index.now.file }
        ensures given { S.shows → IfOk result (λ value. read_value key.now index.now (folder_of (S.disk site.old) (name_of (Blob index.now.file))) ≡ Ok value) }
        ensures corrupt { S.shows → (name : Name) (place : ℕ) → result ≡ Err (Corrupt name place)
            → (name ≡ name_of (Blob index.now.file)) × (read_value key.now index.now (folder_of (S.disk site.old) (name_of (Blob index.now.file))) ≡ Err place) }
        // The site is read, and nothing else.
        ensures quiet { OnlyReads S.Site site.old site.new }
        ensures disk { IsErrOf result RunErr.Disk → Rose (S.disk_faults site.old) (S.disk_faults site.new) }
    {
        let Ok(name) = print_name(self.alloc, &FileName::Blob(index.file)) else {
            return Err(RunErr::OutOfMemory);
        };
        match value_at(self.alloc, site, name.as_str(), key, index) {
            Ok(value) => Ok(value),
            Err(unread) => Err(told(self.alloc, name.as_str(), unread)),
        }
    }

    /// Drops what is kept of the table and of the blob file of this number, which has been removed: nothing is kept.
    pub fn forget(&mut self, _number: u64)
        ensures { self.new ≡ self.old }
    {}
}
