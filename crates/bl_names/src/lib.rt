//! The names of the store's files, and the text of CURRENT.
//!
//! The names are RocksDB's: `CURRENT`, `MANIFEST-000005`, `000012.log`, `000012.sst`,
//! `000012.blob` and `000012.dbtmp`.
#![tactic(auto)]

mod current;
mod name;
mod number;

/// Numbers of files are below this one: they run from 1 to 10^15 - 1.
pub const FILE_LIMIT: u64 = 1_000_000_000_000_000;

pub use current::{parse_current, print_current};
pub use name::{FileName, NameErr, names_one, parse_name, print_name, text_names_one};

#[cfg(test)]
mod tests;
