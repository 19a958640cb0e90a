//! Why the reading of a log ends.

/// Why the reading of a log ends at a place.
#[derive(Clone, Copy, Debug, Drop, PartialEq, Eq)]
pub enum EndCause {
    /// No byte is left, or the bytes end inside filler, and no record is half read.
    Finished,
    /// The bytes end inside a fragment, or with a record half read.
    Cut,
    /// The payload would pass the end of the block.
    Length,
    /// The type is none of the four.
    Kind,
    /// The checksum differs.
    Crc,
    /// The fragment doesn't fit what is half read before it.
    Order,
}
