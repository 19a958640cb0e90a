//! Handles of blocks.

/// Where a block stands in its table: the offset of its first byte, and its size in bytes without the trailer.
#[derive(Clone, Copy, Debug, Drop, PartialEq, Eq)]
pub struct Handle {
    pub offset: u64,
    pub size: u64,
}
