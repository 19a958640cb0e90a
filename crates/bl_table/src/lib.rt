//! Sorted tables in LevelDB's layout: blocks of entries with shared prefixes, an index block and a footer.
#![tactic(auto)]

mod block;
mod builder;
mod check;
mod entry;
mod fault;
mod footer;
mod handle;
mod laws;
mod mark;
mod search;
mod spell;
#[cfg(test)]
mod tests;
mod whole;
mod writer;

pub use block::Block;
pub use builder::TableBuilder;
pub use entry::BlockEntry;
pub use fault::{BadTable, TableErr, TableRule};
pub use footer::read_footer;
pub use handle::Handle;
pub use laws::{tables_are_read_again, tables_are_read_block_by_block};
pub use whole::read_table;
