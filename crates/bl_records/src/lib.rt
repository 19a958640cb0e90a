//! The records of a file that stands in a folder: written one after another, and read one after another, a piece of the file at a
//! time.
#![tactic(auto)]

mod error;
mod laws;
mod reader;
mod writer;

pub use error::RecordErr;
pub use laws::{cut_files_read_as_fronts, files_are_read, synced_files_are_left};
pub use reader::{NextRecord, RecordReader};
pub use writer::RecordWriter;
