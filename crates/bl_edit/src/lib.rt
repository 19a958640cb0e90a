//! Version edits: what a record of the manifest says, in RocksDB's coding.
#![tactic(auto)]

mod decode;
mod edit;
mod encode;
mod error;
mod field;
mod items;
mod laws;
mod options;
mod tag;
#[cfg(test)]
mod tests;

pub use decode::decode_edit;
pub use edit::{BlobAddition, BlobGarbage, DeletedTable, Edit, NewTable};
pub use encode::encode_edit;
pub use error::{BadEdit, EditErr};
pub use items::Items;
pub use laws::edits_are_read;
pub use options::Options;
