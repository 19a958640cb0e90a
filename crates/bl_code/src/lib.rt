//! Numbers, byte strings, checksums and the order of keys, as LevelDB and RocksDB write them.
#![tactic(auto)]

mod crc;
mod error;
mod laws;
mod limits;
mod octets;
mod order;
mod put;
mod table;
mod taker;
#[cfg(test)]
mod tests;
mod varint;

pub use crc::{Crc, crc32c, mask, unmask};
pub use error::CodeErr;
pub use laws::{
    blob_indexes_are_unique, pieces_join, readings_are_exact, unmask_undoes_mask,
    varints_are_spelled, what_is_put_is_taken_again,
};
pub use limits::{MAX_KEY, MAX_VALUE};
pub use octets::Octets;
pub use order::key_order;
pub use put::{put_fixed16, put_fixed32, put_fixed64, put_slice, put_varint32, put_varint64};
pub use taker::Taker;
