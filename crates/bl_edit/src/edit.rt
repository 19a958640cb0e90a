//! What one record of the manifest changes.

ghost use Rattle.std.specs.Prelude.{◌≡◌};
ghost use Rattle.bl_edit.specs.Reading.{no_field};

use crate::items::Items;
use crate::options::Options;
use bl_code::Octets;
use std::alloc::Global;

/// A table that leaves its level, 0 to 6, by the number of its file.
#[derive(Clone, Copy, Debug, Drop, PartialEq, Eq)]
pub struct DeletedTable {
    pub level: u32,
    pub number: u64,
}

/// A table that joins a level, 0 to 6, by the number of its file.
#[derive(Drop)]
pub struct NewTable {
    pub level: u32,
    pub number: u64,
    /// Its bytes.
    pub size: u64,
    /// The bytes of its least and of its greatest internal key.
    pub smallest: Octets,
    pub largest: Octets,
    /// The least and the greatest sequence of its entries, below 2^56.
    pub least_seq: u64,
    pub most_seq: u64,
    /// The least number of a blob file that it names; 0 where it names none.
    pub oldest_blob: u64,
}

/// A new blob file by its number: how many records it has, and their bytes.
#[derive(Clone, Copy, Debug, Drop, PartialEq, Eq)]
pub struct BlobAddition {
    pub number: u64,
    pub count: u64,
    pub bytes: u64,
}

/// How many records of the blob file of this number became garbage, and their bytes.
#[derive(Clone, Copy, Debug, Drop, PartialEq, Eq)]
pub struct BlobGarbage {
    pub number: u64,
    pub count: u64,
    pub bytes: u64,
}

/// What one record of the manifest changes: each number where it is given, and lists in their order.
#[derive(Drop)]
pub struct Edit {
    /// Whether keys are compared by bytes, as this store does.
    pub comparator: bool,
    /// The least number of a log that is needed.
    pub log_number: Option<u64>,
    /// The number that the next new file gets.
    pub next_file: Option<u64>,
    /// The last sequence, below 2^56: no table has a greater one.
    pub last_sequence: Option<u64>,
    pub options: Option<Options>,
    pub deleted: Items<DeletedTable>,
    pub added: Items<NewTable>,
    pub blobs: Items<BlobAddition>,
    pub garbage: Items<BlobGarbage>,
}

impl Edit {
    /// The edit that changes nothing; its lists will stand in this memory.
    pub fn new(alloc: Global) -> Edit
        ensures { result ≡ no_field }
    {
        Edit {
            comparator: false,
            log_number: None,
            next_file: None,
            last_sequence: None,
            options: None,
            deleted: Items::new(alloc),
            added: Items::new(alloc),
            blobs: Items::new(alloc),
            garbage: Items::new(alloc),
        }
    }
}
