//! Lines of the reply to `files`.

/// A table.
#[derive(Clone, Copy, Debug, Drop, PartialEq, Eq)]
pub struct TableLine {
    pub level: u32,
    /// The number in its name.
    pub number: u64,
    /// Its bytes.
    pub size: u64,
    /// The least number of a blob file that it names; 0 where it names none.
    pub oldest: u64,
}

/// A blob file with its accounts.
#[derive(Clone, Copy, Debug, Drop, PartialEq, Eq)]
pub struct BlobLine {
    /// The number in its name.
    pub number: u64,
    /// Its records and their bytes.
    pub count: u64,
    pub bytes: u64,
    /// Those of them that are garbage.
    pub garbage_count: u64,
    pub garbage_bytes: u64,
    /// How many tables are linked to it.
    pub linked: u64,
}
