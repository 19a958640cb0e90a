//! The script: what its lines order, and the texts of replies.
#![tactic(auto)]

mod command;
mod decode;
mod error;
mod parse;
mod print;
mod reply;
mod words;

pub use command::{Command, Operation, Operations, Parsed, Refusal};
pub use error::ScriptErr;
pub use parse::{MAX_LINE, parse_line, parsed_are_within_limits};
pub use print::{append_blob, append_pair, append_table, print_refusal, print_value};
pub use reply::{BlobLine, TableLine};
pub use words::without_return;

#[cfg(test)]
mod tests;
