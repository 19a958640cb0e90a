//! Logs of batches: one record for each batch, appended, synced, and replayed.
#![tactic(auto)]

mod batches;
mod entries;
mod error;
mod laws;
mod replayed;
mod wal;

pub use batches::{BatchReader, LogEnd, NextBatch};
pub use entries::Entries;
pub use error::WalErr;
pub use laws::{cut_logs_read_as_fronts, logs_are_read, records_are_batches, synced_logs_are_left};
pub use replayed::{Replayed, entry_of, replay};
pub use wal::Wal;
