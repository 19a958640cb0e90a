//! Blob indexes, and the meter of what a job leaves unreferenced in blob files.
#![tactic(auto)]

mod account;
mod error;
mod index;
mod meter;
#[cfg(test)]
mod tests;

pub use error::{BadIndex, IndexErr, IndexRule};
pub use index::{BlobIndex, decode_index, encode_index, index_is_read_again};
pub use meter::{Meter, flows_give_room};
