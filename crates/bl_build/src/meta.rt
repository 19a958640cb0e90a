//! Blob files with their accounts, and what stands beside a version.

use bl_blob::Totals;
use bl_edit::Options;

/// A blob file of a version: what it holds in all, how much of that is garbage, and how many tables are
/// linked to it, that is, have it as their oldest blob file.
#[derive(Clone, Copy, Debug, Drop, PartialEq, Eq)]
pub struct BlobMeta {
    /// The number in its name.
    pub number: u64,
    /// Its records and their bytes, from when it was added.
    pub total: Totals,
    /// Those of them that are garbage, at most the totals.
    pub garbage: Totals,
    /// How many tables are linked to it.
    pub linked: u64,
}

/// What a manifest says beside the version.
#[derive(Clone, Copy, Debug, Drop, PartialEq, Eq)]
pub struct Standing {
    /// The least number of a log that is needed.
    pub log_number: u64,
    /// The number that the next new file gets.
    pub next_file: u64,
    /// The greatest sequence that was given out.
    pub last_sequence: u64,
    /// The store's options.
    pub options: Options,
}
