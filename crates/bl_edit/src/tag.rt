//! The tags of fields.

pub(crate) const COMPARATOR: u32 = 1;

pub(crate) const LOG_NUMBER: u32 = 2;

pub(crate) const NEXT_FILE: u32 = 3;

pub(crate) const LAST_SEQUENCE: u32 = 4;

pub(crate) const DELETED: u32 = 6;

pub(crate) const ADDED: u32 = 103;

pub(crate) const BLOB: u32 = 400;

pub(crate) const GARBAGE: u32 = 401;

pub(crate) const OPTIONS: u32 = 9216;

// The custom fields of a table: its oldest blob file, and their end.
pub(crate) const OLDEST_BLOB: u32 = 4;

pub(crate) const TABLE_END: u32 = 1;

// The end of the custom fields of a blob file.
pub(crate) const BLOB_END: u32 = 0;

// An unknown field with this bit in its tag is passed over, and a custom field with this one is not.
pub(crate) const PASSED_BIT: u32 = 1 << 13;

pub(crate) const REQUIRED_BIT: u32 = 1 << 6;

/// The name of the order of keys by bytes.
pub(crate) const COMPARATOR_NAME: &[u8] = b"leveldb.BytewiseComparator";
