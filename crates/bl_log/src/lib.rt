//! The log format of RocksDB and LevelDB: records in fragments, fragments in blocks of 32768 bytes.
#![tactic(auto)]

mod cause;
mod judge;
mod reader;
mod seek;
#[cfg(test)]
mod tests;
mod writer;

pub use cause::EndCause;
pub use reader::{
    LogNext, LogReader, found_records_are_first, placed_records_are_records, reading_ends_within,
};
pub use writer::{
    LogErr, LogWriter, log_is_read, log_is_read_first, only_written_is_read_first, written_is_log,
};
